// Writing a trip file.
ghost use Rattle.std.specs.Prelude.{◌≡◌, ◌++◌, ◌+◌, ◌*◌, ◌≤◌, length, drop};
ghost use Rattle.words.specs.Words.{bytes_of};
ghost use Rattle.tariff.specs.Tests.{verdict_of};
ghost use Rattle.tripfile.specs.Bodies.{plan_words, call_words, paired, calls_right, PlanFits};
ghost use Rattle.tripfile.specs.Writing.{file_size, file_of, calls_reasons, write_verdict, written_of, buffer_of};
ghost use Rattle.tripfile.specs.Writing.{Ready};

use super::calls;
use tariff::{Plan, Refusal, Verdict};

// The words of a plan body.
#[tactic(auto, unfolding(crate::specs::Bodies::plan_words))]
fn words_of(p: Plan) -> [u32; 7]
    requires { PlanFits p }
    ensures { result ≡ plan_words p }
{
    [
        u32::from(p.form),
        p.start as u32,
        p.pergb as u32,
        p.perminute as u32,
        p.persms as u32,
        p.fee as u32,
        p.volume as u32,
    ]
}

// 15: is every call right, of as many codes as numbers?
// kept: two lists here and in `put_calls`, since the C interface lends two.
#[tactic(auto, using(crate::proofs::Listed::pairs_more, crate::proofs::Listed::all_pairs), unfolding(crate::specs::Bodies::calls_right))]
pub fn pairs_right(codes: &[u32], numbers: &[u32]) -> bool
    requires { length numbers.now ≡ length codes.now }
    ensures { result ≡ calls_right (paired codes.now numbers.now) }
{
    let mut right = true;
    for (code, number) in codes.iter().zip(numbers) {
        right &= calls::call_right(*code, *number);
    }
    right
}

// 14, 15, 16.
#[tactic(auto, unfolding(crate::specs::Writing::calls_reasons, tariff::specs::Tests::verdict_of))]
fn calls_verdict(codes: &[u32], numbers: &[u32], room: usize) -> Verdict
    ensures { result ≡ verdict_of (calls_reasons codes.now numbers.now room) }
{
    let n = codes.len();
    if n == 0 || n > 8184 || numbers.len() != n {
        return Err(Refusal::BodyLength);
    }
    if !pairs_right(codes, numbers) {
        return Err(Refusal::CallForm);
    }
    if room < 64 + 8 * n {
        return Err(Refusal::NoRoom);
    }
    Ok(())
}

// What a write is declined for: 1, 17, 18, 2, 14, 15, 16.
#[tactic(auto, using(crate::proofs::Accepted::write_then))]
fn verdict_on(plan: Plan, codes: &[u32], numbers: &[u32], room: usize) -> Verdict
    ensures { result ≡ write_verdict plan codes.now numbers.now room }
{
    tariff::plans::check_plan(plan)?;
    calls_verdict(codes, numbers, room)
}

// Writes the calls body from the start of a part on.
#[tactic(auto, using(crate::proofs::Listed::put_call, crate::proofs::Listed::put_all), unfolding(words::specs::Words::bytes_of))]
fn put_calls(s: &mut [u8], codes: &[u32], numbers: &[u32])
    requires { (8 * length codes.now ≤ length s.old) × (length numbers.now ≡ length codes.now) }
    ensures { s.new
        ≡ bytes_of (call_words (paired codes.now numbers.now)) ++ drop
        (8 * length codes.now) s.old }
{
    for (i, (code, number)) in codes.iter().zip(numbers).enumerate() {
        words::put_word(s, 2 * i, *code);
        words::put_word(s, 2 * i + 1, *number);
    }
}

// Writes the whole file, each body at its own place in the buffer (form-6), and last the word that makes the sum 0.
fn fill(plan: Plan, codes: &[u32], numbers: &[u32], buf: &mut [u8])
    requires { Ready plan codes.now numbers.now (length buf.old) }
    ensures { buf.new
        ≡ file_of plan (paired codes.now numbers.now) ++ drop
        (file_size (length codes.now)) buf.old }
{
    let n = codes.len();
    let size = 64 + 8 * n;
    let front = [size as u32, 0, 2, 1, 36, 28, 2, 64, (8 * n) as u32];
    words::put_words(&mut buf[0..36], &front);
    let body = words_of(plan);
    words::put_words(&mut buf[36..64], &body);
    put_calls(&mut buf[64..], codes, numbers);
    let rest = words::sum(&buf[0..size]);
    words::put_word(buf, 1, words::solve(rest));
}

// The file of a plan and its calls into the buffer, or why it is declined, with every byte as it was: 1, 17, 18, 2, 14,
// 15, 16.
#[tactic(auto, unfolding(crate::specs::Writing::written_of, crate::specs::Writing::buffer_of))]
pub fn write(plan: Plan, codes: &[u32], numbers: &[u32], buf: &mut [u8]) -> Result<usize, Refusal>
    ensures answer { result ≡ written_of plan codes.now numbers.now buf.old }
    ensures buffer { buf.new ≡ buffer_of plan codes.now numbers.now buf.old }
{
    verdict_on(plan, codes, numbers, buf.len())?;
    fill(plan, codes, numbers, buf);
    Ok(64 + 8 * codes.len())
}
