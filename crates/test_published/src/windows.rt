// Windows of 123 and of 15 days, 002 articles 32 to 35, and days off, 004, through whole accounts from day 181 on.
use super::lines::plan;
use account::Account;
use presence::ServiceState;
use std::io;
use tariff::Form;

// An account whose limit is above all that the examples use.
fn fresh() -> Account {
    Account::open(plan(Form::Unlimited, 0, 900000, 0)).account
}

// The account once more, since a call takes it as a value.
pub fn copied(a: &Account) -> Account {
    Account {
        state: a.state,
        log: a.log,
    }
}

// The calls of a calls section n times; fewer if one is refused.
pub fn again(a: &Account, calls: &[u8], n: u64) -> Account {
    let mut held = copied(a);
    for _ in 0..n {
        let done = replay::replay(calls, held);
        held = done.account;
        if done.refused > 0 {
            break;
        }
    }
    held
}

// n days, each with a registration (0 home, 1 zone) and a use of data there.
// kept: the place is the number that stands beside the code in a body of calls.
fn days(a: &Account, place: u32, kb: u32, n: u64) -> Account {
    let coded = [1u32, place, 2, kb, 7, 0];
    let mut calls = [0u8; 24];
    words::put_words(&mut calls, &coded);
    again(a, &calls, n)
}

// n days with the hotspot off.
fn off(a: &Account, n: u64) -> Account {
    let coded = [7u32, 0];
    let mut calls = [0u8; 8];
    words::put_words(&mut calls, &coded);
    again(a, &calls, n)
}

// The account's day and the state of its data service.
fn state_line(rt: &impl Print, name: &str, a: &Account) -> io::Result<()> {
    let day = a.state.day;
    match a.state.services.internet {
        ServiceState::Clear => println!(rt; "{name} day {day} clear"),
        ServiceState::Warned(n) => println!(rt; "{name} day {day} warned {n}"),
        ServiceState::Surcharged => println!(rt; "{name} day {day} surcharged"),
    }
}

// Home days, then zone days, 123 in all. Zone days: 61, of many kB; 62, with as many kB in all as at home; 62, with one
// kB more than at home.
pub fn of_123_days(rt: &impl Print) -> io::Result<()> {
    state_line(
        rt,
        "E32 61 zone days,",
        &days(&days(&fresh(), 0, 1, 62), 1, 1000, 61),
    )?;
    state_line(
        rt,
        "E32 62 zone days, equal units,",
        &days(&days(&fresh(), 0, 62, 61), 1, 61, 62),
    )?;
    state_line(
        rt,
        "E32 62 zone days,",
        &days(&days(&fresh(), 0, 1, 61), 1, 1, 62),
    )
}

// The 15 days after the warning, with 7 zone days, of many kB, and with 8, of one kB more in all than at home.
pub fn of_15_days(rt: &impl Print) -> io::Result<()> {
    let warned = days(&fresh(), 1, 1, 123);
    state_line(
        rt,
        "E33 7 zone days,",
        &days(&days(&warned, 0, 1, 8), 1, 1000, 7),
    )?;
    state_line(
        rt,
        "E33 8 zone days,",
        &days(&days(&warned, 0, 1, 7), 1, 1, 8),
    )
}

// 004 leaves out days with the device off (02, 1/13). Over 123 days, then over the 15 after the warning: one zone day
// and no other; a zone day with more kB than a home day; no day but off days.
pub fn with_off_days(rt: &impl Print) -> io::Result<()> {
    let zone = days(&fresh(), 1, 2, 1);
    let warned = off(&zone, 122);
    state_line(rt, "E38 1 zone day, 122 off,", &warned)?;
    state_line(
        rt,
        "E38 1 zone day, 1 home day, 121 off,",
        &off(&days(&zone, 0, 1, 1), 121),
    )?;
    state_line(rt, "E38 123 off,", &off(&fresh(), 123))?;
    let later = days(&warned, 1, 2, 1);
    state_line(rt, "E38 1 zone day, 14 off,", &off(&later, 14))?;
    state_line(
        rt,
        "E38 1 zone day, 1 home day, 13 off,",
        &off(&days(&later, 0, 1, 1), 13),
    )?;
    state_line(rt, "E38 15 off,", &off(&warned, 15))
}

// Data used in the zone every day. The count of a warning is 0 to 14.
pub fn from_day_181(rt: &impl Print) -> io::Result<()> {
    let clear = days(&fresh(), 1, 1, 122);
    state_line(rt, "E35", &clear)?;
    let warned = days(&clear, 1, 1, 1);
    state_line(rt, "E35", &warned)?;
    let last = days(&warned, 1, 1, 14);
    state_line(rt, "E36", &last)?;
    state_line(rt, "E35", &days(&last, 1, 1, 1))
}
