// A day's marks and units (register-1, use-1, day-2, day-3).
ghost use Rattle.std.specs.Prelude.{◌≡◌};
ghost use Rattle.presence.specs.Day.{in_zone, is_placed, mark_day, add_day, DayAdds, counts_as, empty_day};

use super::{Day, DayKind, Location};
use tariff::{Place, Units};

// Is the hotspot in the zone?
pub fn zone_at(w: Location) -> bool
    ensures { result ≡ in_zone w }
{
    matches!(w, Some(Place::Zone))
}

// Is it anywhere?
pub fn placed(w: Location) -> bool
    ensures { result ≡ is_placed w }
{
    w.is_some()
}

// A day without marks or units.
pub fn day_empty() -> Day
    ensures { result ≡ empty_day }
{
    Day::default()
}

// The day marked with the place.
#[tactic(auto, unfolding(crate::specs::Day::mark_day))]
pub fn marked(w: Location, mut d: Day) -> Day
    ensures { result ≡ mark_day w d }
{
    match w {
        None => {}
        Some(Place::Home) => d.home = true,
        Some(Place::Zone) => d.zone = true,
        Some(Place::Elsewhere) => d.elsewhere = true,
    }
    d
}

// The day with more units at the place.
#[tactic(auto, unfolding(crate::specs::Day::add_day))]
pub fn added(w: Location, u: Units, mut d: Day) -> Day
    requires { DayAdds d u }
    ensures { result ≡ add_day w u d }
{
    match w {
        None => {}
        Some(Place::Home) => d.athome = tariff::amounts::plus(d.athome, u),
        Some(Place::Zone) => d.inzone = tariff::amounts::plus(d.inzone, u),
        Some(Place::Elsewhere) => d.outside = tariff::amounts::plus(d.outside, u),
    }
    d
}

// What a day counts as.
// Kept: `|`, since with `||` the count of 123 days takes a third more instructions.
#[tactic(auto, unfolding(crate::specs::Day::counts_as))]
pub fn day_kind(d: Day) -> DayKind
    ensures { result ≡ counts_as d }
{
    if d.home | d.elsewhere {
        DayKind::HomeDay
    } else if d.zone {
        DayKind::ZoneDay
    } else {
        DayKind::OffDay
    }
}
