// Explains the trip file on standard input: the opening and each call with its answer and the account after it, two
// lines each; or `file` and its number. It only reads, calls and prints: what is decided is proved in `tripfile`,
// `replay` and `account`. `./explain` adds the words of a refusal.
#![tactic(auto)]

mod lines; // lines.rt: the lines that are printed

use account::{Account, Call};
use reader::Reader;
use std::io;
use tripfile::Trip;

// One call of the file, the i-th from 1 on: its lines, and the account after it.
fn explain_call(rt: &impl Print, a: Account, i: usize, c: Call) -> io::Result<Account> {
    let done = account::apply(a, c);
    lines::call(rt, i, c, done.answer)?;
    lines::after(rt, done.account.state)?;
    Ok(done.account)
}

// The opening, and each call of the calls section. A file that was read has no other codes (15).
fn explain_trip(rt: &impl Print, section: &[u8], trip: Trip) -> io::Result<()> {
    let mut a = Account::open(trip.plan).account;
    println!(rt; "open: accepted")?;
    lines::after(rt, a.state)?;
    for (i, coded) in Reader::new(section).take(trip.calls).enumerate() {
        if let Some(c) = replay::decode(coded.code, coded.number) {
            a = explain_call(rt, a, i + 1, c)?;
        }
    }
    Ok(())
}

fn main(rt: HostRuntime) -> io::Result<()> {
    // Four bytes more than the largest file, so that a longer input is told from it.
    let mut bytes = [0u8; 65540];
    let n = intake::read_start(&mut rt.stdin(), &mut bytes)?;
    let file = &bytes[..n];
    match tripfile::reading::read(file) {
        Ok(trip) => explain_trip(&rt, sections::find(file, 2), trip),
        Err(refusal) => println!(rt; "file {refusal}"),
    }
}
