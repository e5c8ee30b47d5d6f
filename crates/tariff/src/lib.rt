// Units and caps, the plan, and what an account works out from them (unit-1, unit-2, caps-1 to caps-3, plan-1 to
// plan-7, limit-3 to limit-6, use-11, use-12, rows-1 to rows-3, fault-1 to fault-4).
#![tactic(auto)]

pub mod amounts;
pub mod caps;
pub mod charges;
pub mod claims;
pub mod plans;
pub mod refusals;

// Units of each kind of use: kB, outgoing seconds, incoming seconds, SMS. Also a number for each kind, as caps.
#[repr(C)]
#[derive(Clone, Copy, PartialEq, Eq, Default)]
pub struct Units {
    pub kb: u64,
    pub outgoing: u64,
    pub incoming: u64,
    pub sms: u64,
}

// Kinds of use: data in kB, MMS included; outgoing and incoming seconds; SMS sent.
#[derive(Clone, Copy)]
pub enum Kind {
    Data,
    Outgoing,
    Incoming,
    Sms,
}

// Places: home; the zone, which is the EU/EEA abroad; elsewhere.
#[derive(Clone, Copy)]
pub enum Place {
    Home,
    Zone,
    Elsewhere,
}

// The caps from a first day on.
#[derive(Clone, Copy)]
pub struct Row {
    pub first: u64,
    pub caps: Units,
}

// Up to eight rows of five numbers: first day, and caps per GB, outgoing minute, incoming minute and SMS; 0 past the
// rows.
// kept: a count beside the numbers, since the claims on tables (`RowsOfTable`, `SearchFindsCaps`) are of such a record.
#[derive(Clone, Copy)]
pub struct Table {
    pub count: u64,
    pub numbers: [u32; 40],
}

// The caps of a day, and how many rows were read to find them.
#[derive(Clone, Copy)]
pub struct Found {
    pub caps: Units,
    pub read: u64,
}

#[derive(Clone, Copy)]
pub enum Form {
    Prepaid,
    Bundle,
    Unlimited,
}

// A plan: prices in points per GB, outgoing minute and SMS; fee in points a month; volume in kB a month.
#[derive(Clone, Copy)]
pub struct Plan {
    pub form: Form,
    pub start: u64,
    pub pergb: u64,
    pub perminute: u64,
    pub persms: u64,
    pub fee: u64,
    pub volume: u64,
}

// A plan as it comes from outside.
// kept: its form is a number, as a file and the C interface give it; any number has its answer in `plan_from`.
#[derive(Clone, Copy)]
pub struct Terms {
    pub form: u64,
    pub start: u64,
    pub pergb: u64,
    pub perminute: u64,
    pub persms: u64,
    pub fee: u64,
    pub volume: u64,
}

// Zone data limit: none, or a number of kB.
pub type Allowance = Option<u64>;

// Accepted, or why not (order-1).
pub type Verdict = Result<(), Refusal>;

// The first of its reasons that a call, an opening, a file or a text meets.
#[derive(Clone, Copy, PartialEq, Eq)]
pub enum Refusal {
    // 0: the numbers of an account contradict each other.
    Unsound,
    // 1: a plan has an unknown form, or a field that its form does not use is not 0.
    UnusedField,
    // 2: the start day is out of range.
    StartDay,
    // 3: the hotspot is registered nowhere.
    Unplaced,
    // 4: a use of no units, or of too many.
    UnitCount,
    // 5: a meter would be past its end.
    MeterFull,
    // 6: the cost is above the credit.
    OverCredit,
    // 7: a top-up of no points, or of too many.
    TopUpSize,
    // 8: all payments together would be past their end.
    PaidLimit,
    // 9: there is no later day.
    LastDay,
    // 10: the length of a file.
    FileLength,
    // 11: its words do not add up to 0.
    FileSum,
    // 12: its count or table of sections.
    FileTable,
    // 13: a section that is asked for is not there just once.
    NotOnce,
    // 14: the length of a plan's or of calls' body, or how many calls there are.
    BodyLength,
    // 15: a call with a code or a number that it cannot have.
    CallForm,
    // 16: too little room in what is lent.
    NoRoom,
    // 17: a home price is out of range.
    PriceRange,
    // 18: a fee or a volume is out of range.
    FeeRange,
    // 19: no card at the place, no cards, or too many.
    CardPlace,
    // 20: beyond a card's allowance, or an allowance out of range.
    CardAllowance,
    // 21: a text of no lines, of too many, or too long.
    TextLength,
    // 22: a line that is not of the form.
    LineForm,
}
