// The first half minute of an outgoing call in the zone, 002 article 25, note, through a whole account (02, 3/13).
use super::windows::{again, copied};
use account::Account;
use state::Outcome;
use std::io;
use tariff::{Form, Kind, Plan};

// An account on day 730, the first of 2024, whose calls bear a surcharge: one second in the zone on each of the 138
// days before, and 1000 points of credit.
fn surcharged() -> Account {
    let plan = Plan {
        form: Form::Unlimited,
        start: 592,
        pergb: 0,
        perminute: 0,
        persms: 0,
        fee: 900000,
        volume: 0,
    };
    let topped = Account::open(plan).account.top_up(1000);
    let coded = [1u32, 1, 3, 1, 7, 0];
    let mut calls = [0u8; 24];
    words::put_words(&mut calls, &coded);
    again(&topped.account, &calls, 138)
}

// Units charged and surcharge points of a call of n seconds.
fn call_line(rt: &impl Print, a: &Account, n: u64) -> io::Result<()> {
    match copied(a).use_units(Kind::Outgoing, n).answer {
        Ok(Outcome::Charged(c)) => {
            println!(rt; "E37 seconds {n} charged {} extra {}", c.charged, c.extra)
        }
        Ok(Outcome::Done) => println!(rt; "E37 seconds {n} done"),
        Ok(Outcome::UpTo(m)) => println!(rt; "E37 seconds {n} up to {m}"),
        Err(refusal) => println!(rt; "E37 seconds {n} refused {refusal}"),
    }
}

// The cap of 2024 is 220 a minute.
pub fn first_half_minute(rt: &impl Print) -> io::Result<()> {
    let a = surcharged();
    call_line(rt, &a, 1)?;
    call_line(rt, &a, 30)?;
    call_line(rt, &a, 31)
}
