// A day's marks and units, the log of the last days, and what it makes of the services (day-1, day-2, service-1 to
// service-10, off-1 to off-4).
#![tactic(auto)]

pub mod claims;
pub mod days;
pub mod log;
pub mod states;
pub mod window;

use tariff::{Place, Units};

// Where the hotspot is: nowhere before the first registration.
pub type Location = Option<Place>;

// The log of the last 123 days, newest first, each day as 13 numbers: the marks as one number, then the units of each
// kind at home, in the zone and elsewhere.
pub type Log = [u64; 1599];

// A day: its marks, and its units by kind and place.
#[derive(Clone, Copy, Default)]
pub struct Day {
    pub home: bool,
    pub zone: bool,
    pub elsewhere: bool,
    pub athome: Units,
    pub inzone: Units,
    pub outside: Units,
}

// What a day counts as.
#[derive(Clone, Copy, PartialEq, Eq)]
pub enum DayKind {
    HomeDay,
    ZoneDay,
    OffDay,
}

#[derive(Clone, Copy, PartialEq, Eq)]
pub enum Service {
    DataService,
    CallService,
    SmsService,
}

// Warned with its day changes so far.
#[derive(Clone, Copy, PartialEq, Eq)]
pub enum ServiceState {
    Clear,
    Warned(u64),
    Surcharged,
}

// The states of the three services.
#[derive(Clone, Copy)]
pub struct Services {
    pub internet: ServiceState,
    pub calls: ServiceState,
    pub messages: ServiceState,
}

// Which services are prevalent over a window of days.
#[derive(Clone, Copy, Default)]
pub struct Prevalent {
    internet: bool,
    calls: bool,
    messages: bool,
}
