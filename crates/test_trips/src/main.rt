// Runs the stored trip files on standard input, each after its length as a little-endian word, and prints a line for
// each: `file` and its number, or the nine figures, where a limit of none is the word `none`.
#![tactic(auto)]

use report::Figures;
use std::{fmt, io};
use tariff::Allowance;

#[derive(Drop)]
// kept: `explain` has it, too; the two programs share no crate that prints
struct Limit(Allowance);

impl fmt::Display for Limit {
    fn fmt<W: fmt::Write>(&self, f: &mut fmt::Formatter<W>) -> fmt::Result {
        match self.0 {
            Some(n) => write!(f, "{n}"),
            None => f.write_str("none"),
        }
    }
}

fn nine(rt: &impl Print, f: Figures) -> io::Result<()> {
    println!(rt;
        "{} {} {} {} {} {} {} {} {}",
        f.day,
        f.paid,
        f.credit,
        f.home,
        f.extra,
        Limit(f.limit),
        f.roamed,
        f.past,
        f.refused
    )
}

// Each stored file, up to one that is cut off.
fn run_cases(rt: &impl Print, cases: &[u8]) -> io::Result<()> {
    let mut rest = cases;
    while let Some(([a, b, c, _], behind)) = rest.split_first_chunk::<4>() {
        let n = u32::from_le_bytes([*a, *b, *c, 0]) as usize;
        let Some((file, next)) = behind.split_at_checked(n) else {
            return Ok(());
        };
        match report::statement_of(file) {
            Ok(figures) => nine(rt, figures)?,
            Err(refusal) => println!(rt; "file {refusal}")?,
        }
        rest = next;
    }
    Ok(())
}

fn main(rt: HostRuntime) -> io::Result<()> {
    let mut all = [0u8; 262144];
    let n = intake::read_start(&mut rt.stdin(), &mut all)?;
    run_cases(&rt, &all[..n])
}
