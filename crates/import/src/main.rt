// Writes the trip file of a plan and of the text on standard input (lines-12), or on standard error a line that tells
// why not: `plan`, `file` or `text`, the number that declines it and, of 22, `line` and that line's number. The plan is
// that of the seven numbers that the program is started with, or without any that of the trip file on descriptor 3. It
// only reads, calls and writes; the file is proved in `conversion`. `./import` adds the words of a number.
#![tactic(auto)]

use conversion::ImportError;
use std::env::FillError;
use std::rt::{Env, Files};
use std::{fs, io};
use tariff::{Plan, Refusal, Terms};

// The i-th number that the program is started with. A word that is missing, no number, or one of over 20 digits counts
// as a number that every range declines.
fn argument(rt: &impl Env, i: usize) -> u64 {
    let mut digits = [0u8; 20];
    let n = rt.arg(i, &mut digits).unwrap_or(0);
    let figure = text::read_decimal(&digits[..n]);
    if figure.right {
        figure.value
    } else {
        4294967296
    }
}

// Is the program started with an i-th word?
fn has_argument(rt: &impl Env, i: usize) -> bool {
    !matches!(rt.arg(i, &mut [0u8; 20]), Err(FillError::NotPresent))
}

// The plan of the seven numbers, or what declines it.
fn plan_of_arguments(rt: &impl Env) -> Result<Plan, Refusal> {
    tariff::plans::plan_from(Terms {
        form: argument(rt, 1),
        start: argument(rt, 2),
        pergb: argument(rt, 3),
        perminute: argument(rt, 4),
        persms: argument(rt, 5),
        fee: argument(rt, 6),
        volume: argument(rt, 7),
    })
}

// Writes the trip file of the plan and the text.
fn import_under(rt: &(impl Print + Eprint), plan: Plan, lines: &[u8]) -> io::Result<()> {
    // Room for every file, so that 16 is never told.
    let mut file = [0u8; 65536];
    match conversion::importing::import_text(plan, lines, &mut file) {
        Ok(k) => {
            if rt.write_all(&file[..k]).is_err() {
                eprintln!(rt; "import: cannot write the file")?;
            }
            Ok(())
        }
        Err(ImportError::BadLine(line)) => eprintln!(rt; "text 22 line {line}"),
        Err(ImportError::Text(refusal)) => eprintln!(rt; "text {refusal}"),
        Err(ImportError::Writing(refusal)) => eprintln!(rt; "plan {refusal}"),
    }
}

// The same under the plan of the trip file on descriptor 3.
fn import_from_file(rt: &(impl Files + Print + Eprint), lines: &[u8]) -> io::Result<()> {
    let mut file = [0u8; 65540];
    let n = intake::read_start(&mut fs::open(rt, "/dev/fd/3")?, &mut file)?;
    match tripfile::reading::read(&file[..n]) {
        Ok(trip) => import_under(rt, trip.plan, lines),
        Err(refusal) => eprintln!(rt; "file {refusal}"),
    }
}

// The same under the plan of the seven numbers.
fn import_from_arguments(rt: &(impl Env + Print + Eprint), lines: &[u8]) -> io::Result<()> {
    match plan_of_arguments(rt) {
        Ok(plan) => import_under(rt, plan, lines),
        Err(refusal) => eprintln!(rt; "plan {refusal}"),
    }
}

fn main(rt: HostRuntime) -> io::Result<()> {
    // Four bytes more than the longest text, so that a longer one is told from it. It is read also where the plan is
    // declined, so that whoever sends it is not cut off.
    let mut lines = [0u8; 65540];
    let n = intake::read_start(&mut rt.stdin(), &mut lines)?;
    if has_argument(&rt, 1) {
        import_from_arguments(&rt, &lines[..n])
    } else {
        import_from_file(&rt, &lines[..n])
    }
}
