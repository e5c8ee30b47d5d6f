// The sums over the last days, and prevalence (service-2 to service-6, off-1 to off-4).
ghost use Rattle.std.specs.Prelude.{◌≡◌, ◌*◌, ◌≤◌, ◌<◌, ℕ, List, ltb, get_or};
ghost use Rattle.presence.specs.declared.Day.{Day};
ghost use Rattle.presence.specs.Day.{empty_day, day_units, zone_day, on_day};
ghost use Rattle.presence.specs.Window.{zone_units, other_units, sum_days};
ghost use Rattle.presence.specs.Log.{days_of, units_over};
ghost use Rattle.presence.specs.Held.{Low, SameMarks};
ghost use Rattle.presence.specs.Held.{prevalent_over, prevalent_where};

use super::{Day, DayKind, Log, Prevalent, Service, days, log};

// 1 for a zone day, else 0.
// Kept: this and `on_day` are an expression each, the two counts of `Window::prevalent`.
#[tactic(auto, unfolding(crate::specs::Day::zone_day))]
fn zone_day(d: Day) -> u64
    ensures { result ≡ zone_day d }
{
    u64::from(days::day_kind(d) == DayKind::ZoneDay)
}

// 1 for a day that is not off, else 0.
#[tactic(auto, unfolding(crate::specs::Day::on_day))]
fn on_day(d: Day) -> u64
    ensures { result ≡ on_day d }
{
    u64::from(days::day_kind(d) != DayKind::OffDay)
}

// A day's zone units of a service.
fn zone_of(d: Day, s: Service) -> u64
    requires { Low (day_units d) }
    ensures { result ≡ zone_units s d }
{
    match s {
        Service::DataService => d.inzone.kb,
        Service::CallService => d.inzone.outgoing + d.inzone.incoming,
        Service::SmsService => d.inzone.sms,
    }
}

// A day's other units of a service.
fn other_of(d: Day, s: Service) -> u64
    requires { Low (day_units d) }
    ensures { result ≡ other_units s d }
{
    match s {
        Service::DataService => d.athome.kb + d.outside.kb,
        Service::CallService => d.athome.outgoing + d.outside.outgoing + d.outside.incoming,
        Service::SmsService => d.athome.sms + d.outside.sms,
    }
}

// The sum, over the first w numbers, of what each adds: that over one number less, and what the one before them adds,
// which is read first.
// Kept: the array and w, since 01 names a recursion that falls on w for such a sum (form-5).
fn sum_last<F: Fn(u64) -> u64>(xs: &[u64; 123], w: usize, adds: &F) -> u64
    requires callable { F.IsAlwaysCallable adds.now }
    requires few { w ≤ 123 }
    requires small { (k r : ℕ) → k < w → F.post adds.now (get_or xs.now k 0) r → r ≤ 5000000000000 }
    ensures sum { (f : Day → ℕ) (ds : List Day)
        → ((k r : ℕ) → k < w → F.post adds.now (get_or xs.now k 0) r → r ≡ f (get_or ds k empty_day))
        → result ≡ sum_days f w ds }
    ensures size { result ≤ 5000000000000 * w }
{
    if w == 0 {
        return 0;
    }
    let last = w - 1;
    let x = adds(xs[last]);
    x + sum_last(xs, last, adds)
}

// The last days of a log, which sums are taken over.
#[derive(Clone, Copy)]
struct Window<'a> {
    log: &'a Log,
    days: usize,
    ghost few: { days ≤ 123 },
    ghost low: { Low (units_over days (days_of log.now)) },
}

impl Window<'_> {
    // The marks of its days, as the log keeps them.
    fn marks(self) -> [u64; 123]
        ensures { SameMarks self.entry.days self.entry.log.now result }
    {
        let mut marks = [0; 123];
        for i in 0..self.days {
            marks[i] = self.log[13 * i];
        }
        marks
    }

    // The sum of what each of its days adds. The array is for the numbers that are added.
    fn units_sum<F: Fn(Day) -> u64>(self, xs: &mut [u64; 123], adds: &F) -> u64
        requires callable { (i : ℕ) → i < self.days → F.pre adds.now (get_or (days_of self.log.now) i empty_day) }
        requires small { (i r : ℕ) → i < self.days → F.post adds.now (get_or (days_of self.log.now) i empty_day) r
            → r ≤ 5000000000000 }
        ensures { (f : Day → ℕ)
            → ((i r : ℕ) → i < self.entry.days → F.post adds.now (get_or (days_of self.entry.log.now) i empty_day) r
            → r ≡ f (get_or (days_of self.entry.log.now) i empty_day))
            → result ≡ sum_days f self.entry.days (days_of self.entry.log.now) }
    {
        for i in 0..self.days {
            xs[i] = adds(log::day_at(self.log, i));
        }
        sum_last(xs, self.days, &|x| x)
    }

    // Do the zone units of a service exceed its other units? The array is for the numbers that are added.
    fn zone_exceeds(self, xs: &mut [u64; 123], v: Service) -> bool
        ensures { result ≡ ltb (sum_days (other_units v) self.entry.days (days_of self.entry.log.now))
            (sum_days (zone_units v) self.entry.days (days_of self.entry.log.now)) }
    {
        let zone = self.units_sum(xs, &|d| zone_of(d, v));
        let other = self.units_sum(xs, &|d| other_of(d, v));
        other < zone
    }

    // Which services are prevalent over its days? Off days are in neither count of days. Where zone days are too few
    // none is, and no units are summed.
    fn prevalent(self) -> Prevalent
        ensures { result ≡ prevalent_over self.entry.days (days_of self.entry.log.now) }
    {
        let mut xs = self.marks();
        let zone = sum_last(&xs, self.days, &|m| zone_day(log::marked_day(m)));
        let on = sum_last(&xs, self.days, &|m| on_day(log::marked_day(m)));
        if 2 * zone <= on {
            return Prevalent::default();
        }
        Prevalent {
            internet: self.zone_exceeds(&mut xs, Service::DataService),
            calls: self.zone_exceeds(&mut xs, Service::CallService),
            messages: self.zone_exceeds(&mut xs, Service::SmsService),
        }
    }
}

// Which services are prevalent over the last w days, or over the n logged days where these are fewer? Where this is not
// asked the log is not read, and the answer is none.
// Kept: the flag, as the promise is stated for both of its values.
pub fn prevalent_where(asked: bool, log: &Log, w: usize, n: usize) -> Prevalent
    requires { (n ≤ 123) × Low (units_over n (days_of log.now)) }
    ensures { result ≡ prevalent_where asked w n (days_of log.now) }
{
    if !asked {
        return Prevalent::default();
    }
    let days = w.min(n);
    Window { log, days }.prevalent()
}
