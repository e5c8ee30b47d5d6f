// The lines that are printed: a call with its answer, and the account after it.
use account::Call;
use presence::Location;
use state::{Answer, Outcome, State};
use std::{fmt, io};
use tariff::{Allowance, Kind, Place};

// A place by its name.
#[derive(Drop)]
struct Name(Place);

impl fmt::Display for Name {
    fn fmt<W: fmt::Write>(&self, f: &mut fmt::Formatter<W>) -> fmt::Result {
        f.write_str(match self.0 {
            Place::Home => "home",
            Place::Zone => "zone",
            Place::Elsewhere => "elsewhere",
        })
    }
}

// Where the hotspot is, or `none`.
#[derive(Drop)]
struct Where(Location);

impl fmt::Display for Where {
    fn fmt<W: fmt::Write>(&self, f: &mut fmt::Formatter<W>) -> fmt::Result {
        match self.0 {
            Some(place) => write!(f, "{}", Name(place)),
            None => f.write_str("none"),
        }
    }
}

// The limit's kB, or `none`.
// kept: `test_trips` has it, too; the two programs share no crate that prints
#[derive(Drop)]
struct Limit(Allowance);

impl fmt::Display for Limit {
    fn fmt<W: fmt::Write>(&self, f: &mut fmt::Formatter<W>) -> fmt::Result {
        match self.0 {
            Some(n) => write!(f, "{n}"),
            None => f.write_str("none"),
        }
    }
}

// A use's kind, as it stands before the units.
#[derive(Drop)]
struct Use(Kind);

impl fmt::Display for Use {
    fn fmt<W: fmt::Write>(&self, f: &mut fmt::Formatter<W>) -> fmt::Result {
        f.write_str(match self.0 {
            Kind::Data => "data",
            Kind::Outgoing => "out",
            Kind::Incoming => "in",
            Kind::Sms => "sms",
        })
    }
}

// A call: its name, and its place, units or amount.
#[derive(Drop)]
struct Made(Call);

impl fmt::Display for Made {
    fn fmt<W: fmt::Write>(&self, f: &mut fmt::Formatter<W>) -> fmt::Result {
        match self.0 {
            Call::Register(place) => write!(f, "register {}", Name(place)),
            Call::Use(kind, n) => write!(f, "{} {n}", Use(kind)),
            Call::TopUp(n) => write!(f, "topup {n}"),
            Call::NextDay => f.write_str("nextday"),
            Call::Afford(_) => f.write_str("afford"),
        }
    }
}

// The unit of the call's kind with a space before it, if it is a use.
fn unit_of(c: Call) -> &'static str {
    match c {
        Call::Use(Kind::Data, _) => " kB",
        Call::Use(Kind::Outgoing | Kind::Incoming, _) => " s",
        Call::Use(Kind::Sms, _) => " SMS",
        _ => "",
    }
}

// What is answered to a call: for an accepted use what it took, for what, and whether the limit was reached by it.
#[derive(Drop)]
struct Told(Call, Answer);

impl fmt::Display for Told {
    fn fmt<W: fmt::Write>(&self, f: &mut fmt::Formatter<W>) -> fmt::Result {
        match self.1 {
            Ok(Outcome::Done) => f.write_str("accepted"),
            Ok(Outcome::Charged(taken)) => {
                let unit = unit_of(self.0);
                let notice = if taken.notice { ", notice" } else { "" };
                write!(
                    f,
                    "accepted, home {}, extra {}, charged {}{unit}, surcharged {}{unit}{notice}",
                    taken.home, taken.extra, taken.charged, taken.surcharged
                )
            }
            Ok(Outcome::UpTo(n)) => write!(f, "up to {n}"),
            Err(refusal) => write!(f, "refused {refusal}"),
        }
    }
}

// A call, the i-th, with its answer.
pub fn call(rt: &impl Print, i: usize, c: Call, answer: Answer) -> io::Result<()> {
    println!(rt; "{i} {}: {}", Made(c), Told(c, answer))
}

// The account after a call, in a line of its own.
pub fn after(rt: &impl Print, s: State) -> io::Result<()> {
    println!(rt;
        "    day {}, place {}, credit {}, limit {}, roamed {}",
        s.day,
        Where(s.place),
        s.money.credit,
        Limit(s.quota.allowance),
        s.quota.roamed
    )
}
