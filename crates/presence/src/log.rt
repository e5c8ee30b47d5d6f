// The log of the last 123 days.
ghost use Rattle.std.specs.Prelude.{◌≡◌, ◌++◌, ◌+◌, ◌-◌, ◌≤◌, ◌<◌, drop, replicate, get_or, length};
ghost use Rattle.tariff.specs.Units.{◌⊕◌, each, AtMost};
ghost use Rattle.presence.specs.Day.{empty_day, day_units};
ghost use Rattle.presence.specs.Log.{marks_number, numbers_of, day_from, days_of, logged_with, units_over};
ghost use Rattle.presence.specs.Log.{lifetime_most, log_within};
ghost use Rattle.presence.specs.Held.{Roomy, Bounded, UnitsFit, bits_of, place_from, marks_kept, marked_day, bits_with};
ghost use Rattle.presence.specs.Held.{bits_over, units_bits};

use super::{Day, Log};
use tariff::Units;

// A log without days.
pub fn log_empty() -> Log
    ensures { result ≡ replicate 1599 0 }
{
    [0; 1599]
}

// Four numbers of a list, from place j on: units of each kind.
pub fn units_at(xs: &[u64], j: usize) -> Units
    requires { j + 4 ≤ length xs.now }
    ensures { result ≡ each (get_or xs.now j 0) (get_or xs.now (j + 1) 0)
        (get_or xs.now (j + 2) 0) (get_or xs.now (j + 3) 0) }
{
    Units {
        kb: xs[j],
        outgoing: xs[j + 1],
        incoming: xs[j + 2],
        sms: xs[j + 3],
    }
}

// A day with these marks and no units.
pub(crate) fn marked_day(m: u64) -> Day
    ensures { result ≡ marked_day m }
{
    Day {
        home: m % 2 == 1,
        zone: (m / 2) % 2 == 1,
        elsewhere: (m / 4) % 2 == 1,
        ..Day::default()
    }
}

// The day of 13 numbers of a list, from place j on.
pub fn day_in(xs: &[u64], j: usize) -> Day
    requires { j + 13 ≤ length xs.now }
    ensures { result ≡ day_from (drop j xs.now) }
{
    Day {
        athome: units_at(xs, j + 1),
        inzone: units_at(xs, j + 5),
        outside: units_at(xs, j + 9),
        ..marked_day(xs[j])
    }
}

// Day i of the log; 0 is the newest.
#[tactic(auto, using(crate::proofs::Numbers::day_placed))]
pub fn day_at(log: &Log, i: usize) -> Day
    requires { i < 123 }
    ensures { result ≡ get_or (days_of log.now) i empty_day }
{
    day_in(log, 13 * i)
}

// A day's marks as one number.
pub fn marks_of(d: Day) -> u64
    ensures { result ≡ marks_number d }
{
    u64::from(d.home) + 2 * u64::from(d.zone) + 4 * u64::from(d.elsewhere)
}

// A day's 13 numbers.
#[tactic(auto, unfolding(crate::specs::Log::numbers_of))]
pub fn numbers(d: Day) -> [u64; 13]
    ensures { result ≡ numbers_of d }
{
    [
        marks_of(d),
        d.athome.kb,
        d.athome.outgoing,
        d.athome.incoming,
        d.athome.sms,
        d.inzone.kb,
        d.inzone.outgoing,
        d.inzone.incoming,
        d.inzone.sms,
        d.outside.kb,
        d.outside.outgoing,
        d.outside.incoming,
        d.outside.sms,
    ]
}

// The log with one day more: every day one place on, the oldest dropped, and the new one in front.
pub fn push(log: &mut Log, d: Day)
    ensures { log.new ≡ logged_with d log.old }
{
    log.copy_within(..1586, 13);
    log[..13].copy_from_slice(&numbers(d));
}

// The sum with a day's units.
fn add_day(sum: Units, d: Day) -> Units
    requires { Roomy sum × Bounded (day_units d) }
    ensures { result ≡ day_units d ⊕ sum }
{
    let a = tariff::amounts::plus(d.athome, d.inzone);
    let b = tariff::amounts::plus(a, d.outside);
    tariff::amounts::plus(b, sum)
}

// The units of the first n days.
#[tactic(auto, using(crate::proofs::Logs::over_none, crate::proofs::Logs::over_next))]
fn tally(log: &Log, n: usize) -> Units
    requires { (n ≤ 123) × UnitsFit n log.now }
    ensures { result ≡ units_over n (days_of log.now) }
{
    let mut sum = Units::default();
    for i in 0..n {
        sum = add_day(sum, day_at(log, i));
    }
    sum
}

// The bits of the numbers from one place to before another, joined: below a power of 2 exactly if each number is.
fn bits_between(log: &Log, from: usize, to: usize) -> u64
    requires { (from ≤ to) × (to ≤ 1599) }
    ensures { result ≡ bits_of (place_from from log.now) (to - from) }
{
    log[from..to].iter().fold(0, |bits, number| bits | *number)
}

// The same of the marks of the first n days.
// Kept: beside `bits_between`, as it reads one number in 13.
#[tactic(auto, using(crate::proofs::Bits::bits_none, crate::proofs::Bits::bits_next))]
fn marks_bits(log: &Log, n: usize) -> u64
    requires { n ≤ 123 }
    ensures { result ≡ bits_of (marks_kept log.now) n }
{
    let mut bits = 0;
    for i in 0..n {
        bits |= log[13 * i];
    }
    bits
}

// The bits of units of all kinds, joined.
fn units_bits(u: Units) -> u64
    ensures { result ≡ units_bits u }
{
    u.kb | u.outgoing | u.incoming | u.sms
}

// The bits of units, joined kind by kind with those of a day.
fn join_day(bits: Units, d: Day) -> Units
    ensures { result ≡ bits_with bits d }
{
    let or = |m, n| m | n;
    let near = tariff::amounts::kind_by_kind(or, d.athome, d.inzone);
    let all = tariff::amounts::kind_by_kind(or, near, d.outside);
    tariff::amounts::kind_by_kind(or, all, bits)
}

// The same of the first n days. In the form of their sum, so that it is compiled alike, two numbers at a time.
// Kept: a loop beside `tally`, since one for both would ask of each step the room that only a sum needs.
#[tactic(auto, using(crate::proofs::Bits::joined_none, crate::proofs::Bits::joined_next))]
fn join_days(log: &Log, n: usize) -> Units
    requires { n ≤ 123 }
    ensures { result ≡ bits_over n (days_of log.now) }
{
    let mut bits = Units::default();
    for i in 0..n {
        bits = join_day(bits, day_at(log, i));
    }
    bits
}

// Are the units of today and of the n logged days within the lifetime units, the other places blank, and all marks
// proper? A number of 2^40 or more is above any lifetime units; without one the units add up.
pub fn log_fits(log: &Log, today: Day, n: u64, lifetime: Units) -> bool
    requires { (n ≤ 123) × AtMost lifetime lifetime_most }
    ensures { result ≡ log_within log.now today n lifetime }
{
    let k = n as usize;
    let rest = bits_between(log, 13 * k, 1599);
    if rest != 0 {
        return false;
    }
    let marks = marks_bits(log, k);
    if marks > 7 {
        return false;
    }
    let units = units_bits(join_day(join_days(log, k), today));
    if units >= 1099511627776 {
        return false;
    }
    let sum = add_day(tally(log, k), today);
    tariff::amounts::units_fit(sum, lifetime)
}
