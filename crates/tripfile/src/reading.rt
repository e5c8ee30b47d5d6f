// Reading a trip file.
ghost use Rattle.std.specs.Prelude.{◌≡◌, ◌≤◌, ◌/◌, length};
ghost use Rattle.tariff.specs.Plan.{plan_with};
ghost use Rattle.tariff.specs.Tests.{verdict_of};
ghost use Rattle.tripfile.specs.Bodies.{terms_in, calls_in, calls_right};
ghost use Rattle.tripfile.specs.Reading.{body_reasons, read_answer, read_of};

use super::{Trip, calls};
use tariff::{Refusal, Terms};

// The terms that a plan body holds.
#[tactic(auto, unfolding(crate::specs::Bodies::terms_in))]
fn terms_of(body: &[u8]) -> Terms
    requires { 28 ≤ length body.now }
    ensures { result ≡ terms_in body.now }
{
    Terms {
        form: u64::from(words::word_at(body, 0)),
        start: u64::from(words::word_at(body, 1)),
        pergb: u64::from(words::word_at(body, 2)),
        perminute: u64::from(words::word_at(body, 3)),
        persms: u64::from(words::word_at(body, 4)),
        fee: u64::from(words::word_at(body, 5)),
        volume: u64::from(words::word_at(body, 6)),
    }
}

// 15: is every call of a calls body right?
#[tactic(auto, using(crate::proofs::Listed::right_more), unfolding(crate::specs::Bodies::calls_in, crate::specs::Bodies::first_calls, crate::specs::Bodies::calls_right))]
fn body_right(body: &[u8]) -> bool
    ensures { result ≡ calls_right (calls_in body.now) }
{
    let mut right = true;
    for i in 0..body.len() / 8 {
        let code = words::word_at(body, 2 * i);
        let number = words::word_at(body, 2 * i + 1);
        right &= calls::call_right(code, number);
    }
    right
}

// The answer on the two bodies: 14, 15, then 1, 17, 18, 2.
#[tactic(auto, unfolding(crate::specs::Reading::body_reasons, tariff::specs::Tests::verdict_of))]
fn read_bodies(plan: &[u8], calls: &[u8]) -> Result<Trip, Refusal>
    ensures { result ≡ read_answer (verdict_of (body_reasons plan.now calls.now))
        (plan_with (terms_in plan.now)) (length calls.now / 8) }
{
    let n = calls.len();
    if plan.len() != 28 || n == 0 || n % 8 != 0 {
        return Err(Refusal::BodyLength);
    }
    if !body_right(calls) {
        return Err(Refusal::CallForm);
    }
    let plan = tariff::plans::plan_from(terms_of(plan))?;
    Ok(Trip { plan, calls: n / 8 })
}

// The plan and the number of calls of a file of any bytes: 10, 11, 12, 13, 14, 15, then 1, 17, 18, 2.
#[tactic(auto, using(crate::proofs::Accepted::read_then), unfolding(crate::specs::Reading::read_of))]
pub fn read(file: &[u8]) -> Result<Trip, Refusal>
    ensures { result ≡ read_of file.now }
{
    sections::file_verdict(file)?;
    if !(sections::is_once(file, 1) & sections::is_once(file, 2)) {
        return Err(Refusal::NotOnce);
    }
    read_bodies(sections::part(file, 1), sections::part(file, 2))
}
