// Trip files: the statement of one, reading, finding, writing, and its calls on an account in the caller's memory.
ghost use Rattle.std.specs.Prelude.{◌≡◌, true, cond, ◌∷◌, [], ◌++◌, ◌+◌, ◌≤◌, ◌<◌, length, leb};
ghost use Rattle.state.specs.Sound.{allowance_fits};
ghost use Rattle.sections.specs.Find.{find_verdict};
ghost use Rattle.tripfile.specs.Reading.{read_of};
ghost use Rattle.reader.specs.Calls.{decoded};
ghost use Rattle.replay.specs.Replay.{run_section};
ghost use Rattle.report.specs.Statement.{report_of};
ghost use Rattle.numbers.specs.Numbers.{plan_numbers, account_numbers, account_from};
ghost use Rattle.meter.specs.Answers.{laid, bad_argument, verdict_code};
ghost use Rattle.meter.specs.Calls.{sound_numbers};
ghost use Rattle.meter.specs.Files.{figures_numbers, report_code, report_laid, read_code, read_laid, find_laid};
ghost use Rattle.meter.specs.Files.{written_code, written_laid, write_code, write_laid, write_buffer};
ghost use Rattle.meter.specs.Files.{step_code, step_laid, run_code, run_numbers, run_laid};

use super::{put_first, put_number, sound_held};
use report::Figures;
use tariff::Refusal;
use tripfile::Trip;

fn put_figures(out: &mut [u64], f: Figures)
    requires { (9 ≤ length out.old) × (allowance_fits f.limit ≡ true) }
    ensures { out.new ≡ laid (figures_numbers f) out.old }
{
    let limit = numbers::number_of_allowance(f.limit);
    let ns = [
        f.day,
        f.paid,
        f.credit,
        f.home,
        f.extra,
        limit,
        f.roamed,
        f.past,
        f.refused as u64,
    ];
    put_first(out, &ns);
}

// The nine figures of a trip file's statement, or the number of a bad file.
pub fn meter_statement(file: &[u8], answer: &mut [u64]) -> u64
    ensures code { result ≡ cond (leb 9 (length answer.old))
        (report_code (report_of file.now)) bad_argument }
    ensures answered { answer.new ≡ cond (leb 9 (length answer.old))
        (report_laid (report_of file.now) answer.old) answer.old }
{
    if answer.len() < 9 {
        return 1001;
    }
    match report::statement_of(file) {
        Ok(f) => {
            put_figures(answer, f);
            1000
        }
        Err(refusal) => refusal.into(),
    }
}

fn put_trip(out: &mut [u64], trip: Trip)
    requires { 8 ≤ length out.old }
    ensures { out.new ≡ laid (plan_numbers trip.plan ++ (trip.calls ∷ [])) out.old }
{
    let p = trip.plan;
    let ns = [
        numbers::number_of_form(p.form),
        p.start,
        p.pergb,
        p.perminute,
        p.persms,
        p.fee,
        p.volume,
        trip.calls as u64,
    ];
    put_first(out, &ns);
}

// The plan of a trip file and how many calls it has: 10, 11, 12, 13, 14, 15, then 1, 17, 18, 2.
pub fn meter_read(file: &[u8], answer: &mut [u64]) -> u64
    ensures code { result ≡ cond (leb 8 (length answer.old))
        (read_code (read_of file.now)) bad_argument }
    ensures answered { answer.new ≡ cond (leb 8 (length answer.old))
        (read_laid (read_of file.now) answer.old) answer.old }
{
    if answer.len() < 8 {
        return 1001;
    }
    match tripfile::reading::read(file) {
        Ok(trip) => {
            put_trip(answer, trip);
            1000
        }
        Err(refusal) => refusal.into(),
    }
}

// Where the section of a kind starts in a trip file, and how many bytes it has: 10, 11, 12, 13.
#[tactic(auto, unfolding(crate::specs::Files::find_laid))]
pub fn meter_find(file: &[u8], kind: u32, answer: &mut [u64]) -> u64
    ensures code { result ≡ cond (leb 2 (length answer.old))
        (verdict_code (find_verdict file.now kind)) bad_argument }
    ensures answered { answer.new ≡ cond (leb 2 (length answer.old))
        (find_laid file.now kind answer.old) answer.old }
{
    if answer.len() < 2 {
        return 1001;
    }
    match sections::find_verdict(file, kind) {
        Ok(()) => {
            let e = sections::part_extent(file, kind);
            put_first(answer, &[e.start as u64, e.length as u64]);
            1000
        }
        Err(refusal) => refusal.into(),
    }
}

pub(crate) fn put_written(out: &mut [u64], w: Result<usize, Refusal>) -> u64
    requires { 1 ≤ length out.old }
    ensures code { result ≡ written_code w }
    ensures answered { out.new ≡ written_laid w out.old }
{
    match w {
        Ok(n) => {
            put_number(out, n as u64);
            1000
        }
        Err(refusal) => refusal.into(),
    }
}

// Writes the trip file of a plan's seven numbers and of calls into a buffer: 1, 17, 18, 2, 14, 15, 16.
#[tactic(auto, unfolding(crate::specs::Files::plan_with_room, crate::specs::Files::write_code, crate::specs::Files::write_laid, crate::specs::Files::write_buffer))]
pub fn meter_write(
    plan: &[u64],
    codes: &[u32],
    numbers: &[u32],
    buffer: &mut [u8],
    answer: &mut [u64],
) -> u64
    ensures code { result ≡ write_code plan.now codes.now numbers.now
        buffer.old answer.old }
    ensures written { buffer.new ≡ write_buffer plan.now codes.now
        numbers.now buffer.old answer.old }
    ensures answered { answer.new ≡ write_laid plan.now codes.now
        numbers.now buffer.old answer.old }
{
    if plan.len() != 7 || answer.len() < 1 {
        return 1001;
    }
    match tariff::plans::plan_from(numbers::terms_of(plan)) {
        Ok(p) => { put_written(answer, tripfile::writing::write(p, codes, numbers, buffer)) }
        Err(refusal) => refusal.into(),
    }
}

// The call at a position of a calls section, unchecked, and the position after it; or that there is none.
pub fn meter_call(section: &[u8], position: usize, answer: &mut [u64]) -> u64
    ensures code { result ≡ cond (leb 3 (length answer.old))
        (step_code (decoded section.now position)) bad_argument }
    ensures answered { answer.new ≡ cond (leb 3 (length answer.old))
        (step_laid section.now position (decoded section.now position) answer.old)
        answer.old }
{
    if answer.len() < 3 {
        return 1001;
    }
    match reader::decode(section, position) {
        Some(c) => {
            let after = reader::after(section, position);
            put_first(
                answer,
                &[u64::from(c.code), u64::from(c.number), after as u64],
            );
            1000
        }
        None => 1002,
    }
}

// The calls of a section on the sound account that the numbers stand for, with the log where it stands; and how many
// of them were refused.
fn run_held(account: &mut [u64], section: &[u8]) -> usize
    requires { sound_numbers account.old ≡ true }
    ensures refused { result ≡ (run_section (account_from account.old) section.now).refused }
    ensures numbers { account.new
        ≡ account_numbers (run_section (account_from account.old) section.now).account }
{
    let state = numbers::state_held(account);
    let log = account.first_chunk_mut::<1599>().unwrap();
    let t = replay::run_section(section, state, log, true);
    numbers::put_state(account, t.state);
    t.refused
}

// All calls of a trip file on an account that has been in use, and how many of them were refused: 0, then the numbers
// of a bad file.
#[tactic(auto, unfolding(crate::specs::Files::run_code, crate::specs::Files::run_numbers, crate::specs::Files::run_laid))]
pub fn meter_run(account: &mut [u64], file: &[u8], answer: &mut [u64]) -> u64
    ensures code { result ≡ cond (leb 1 (length answer.old))
        (run_code account.old file.now) bad_argument }
    ensures numbers { account.new ≡ cond (leb 1 (length answer.old))
        (run_numbers account.old file.now) account.old }
    ensures answered { answer.new ≡ cond (leb 1 (length answer.old))
        (run_laid account.old file.now answer.old) answer.old }
{
    if answer.len() < 1 {
        return 1001;
    }
    if !sound_held(account) {
        return Refusal::Unsound.into();
    }
    match tripfile::reading::read(file) {
        Ok(_) => {
            let refused = run_held(account, sections::part(file, 2));
            put_number(answer, refused as u64);
            1000
        }
        Err(refusal) => refusal.into(),
    }
}
