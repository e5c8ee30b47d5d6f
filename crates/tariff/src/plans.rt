// Which plans are accepted, and the zone data limit that a plan gives (plan-1 to plan-7, limit-3 to limit-6, fault-1 to
// fault-4).
ghost use Rattle.std.specs.Prelude.{◌≡◌, true, false, ◌-◌, ◌*◌, ◌/◌, ◌<◌};
ghost use Rattle.tariff.specs.Plan.{is_prepaid, prices_in_range, unused_empty, terms_in_range, plan_verdict};
ghost use Rattle.tariff.specs.Plan.{form_of, form_word, plan_with, plan_of, open_bundle, credit_allowance};
ghost use Rattle.tariff.specs.Plan.{plan_allowance, CreditFits};
ghost use Rattle.tariff.specs.Plan.{BundleFits};

use super::{Allowance, Form, Plan, Refusal, Terms, Verdict};

// The number of a form.
impl From<Form> for u32 {
    ghost from_gives = { λ f n. n ≡ form_word f };

    fn from(f: Form) -> u32 {
        match f {
            Form::Prepaid => 0,
            Form::Bundle => 1,
            Form::Unlimited => 2,
        }
    }
}

// Is the plan prepaid?
pub fn prepaid(f: Form) -> bool
    ensures { result ≡ is_prepaid f }
{
    matches!(f, Form::Prepaid)
}

// Are the fields that the form does not use 0?
#[tactic(auto, unfolding(crate::specs::Plan::unused_empty))]
fn leaves_unused(f: Form, p: Plan) -> bool
    ensures { result ≡ unused_empty f p }
{
    match f {
        Form::Prepaid => (p.fee == 0) & (p.volume == 0),
        Form::Bundle => true,
        Form::Unlimited => (p.pergb == 0) & (p.volume == 0),
    }
}

// Are the home prices in their range?
#[tactic(auto, unfolding(crate::specs::Plan::prices_in_range))]
fn prices_fit(p: Plan) -> bool
    ensures { result ≡ prices_in_range p }
{
    (p.pergb <= 1000000) & (p.perminute <= 1000000) & (p.persms <= 1000000)
}

// Are a bundle's fee and volume in their ranges?
#[tactic(auto, unfolding(crate::specs::Plan::terms_in_range))]
fn terms_fit(f: Form, p: Plan) -> bool
    ensures { result ≡ terms_in_range f p }
{
    match f {
        Form::Prepaid => true,
        Form::Bundle => (p.fee <= 10000000) & ((1 <= p.volume) & (p.volume <= 1073741824)),
        Form::Unlimited => p.fee <= 10000000,
    }
}

// May an account be opened under the plan? Refusals 1, 17, 18 and 2.
#[tactic(auto, unfolding(crate::specs::Plan::plan_verdict, crate::specs::Plan::plan_reasons, crate::specs::Plan::amount_reasons, crate::specs::Tests::verdict_of))]
pub fn check_plan(p: Plan) -> Verdict
    ensures { result ≡ plan_verdict p }
{
    if !leaves_unused(p.form, p) {
        return Err(Refusal::UnusedField);
    }
    if !prices_fit(p) {
        return Err(Refusal::PriceRange);
    }
    if !terms_fit(p.form, p) {
        return Err(Refusal::FeeRange);
    }
    if !((181 <= p.start) & (p.start <= 3833)) {
        return Err(Refusal::StartDay);
    }
    Ok(())
}

// The form of a number up to 2.
// Kept: no `TryFrom`, since `plan_with` promises a plan for every number.
#[tactic(auto, unfolding(crate::specs::Plan::form_of))]
fn form_at(word: u64) -> Form
    ensures { result ≡ form_of word }
{
    match word {
        0 => Form::Prepaid,
        1 => Form::Bundle,
        _ => Form::Unlimited,
    }
}

// The plan of these terms, with an unknown form taken for unlimited.
pub fn plan_with(t: Terms) -> Plan
    ensures { result ≡ plan_with t }
{
    Plan {
        form: form_at(t.form),
        start: t.start,
        pergb: t.pergb,
        perminute: t.perminute,
        persms: t.persms,
        fee: t.fee,
        volume: t.volume,
    }
}

// The plan of these terms, or why it is declined: 1, also for an unknown form, then 17, 18 and 2.
#[tactic(auto, using(crate::proofs::PlanLaws::known_form), unfolding(crate::specs::Plan::plan_of, crate::specs::Plan::terms_reasons, crate::specs::Tests::verdict_of))]
pub fn plan_from(t: Terms) -> Result<Plan, Refusal>
    ensures { result ≡ plan_of t }
{
    if t.form > 2 {
        return Err(Refusal::UnusedField);
    }
    let p = plan_with(t);
    check_plan(p)?;
    Ok(p)
}

// Is a plan of this form an open bundle, at this fee, data cap and volume?
#[tactic(auto, unfolding(crate::specs::Plan::open_bundle))]
pub fn is_open(f: Form, fee: u64, cap: u64, volume: u64) -> bool
    requires { BundleFits fee cap volume }
    ensures { result ≡ open_bundle f fee cap volume }
{
    match f {
        Form::Prepaid => false,
        Form::Bundle => fee * 1048576 < cap * volume,
        Form::Unlimited => true,
    }
}

// The allowance of a prepaid credit at a data cap.
#[tactic(auto, unfolding(crate::specs::Plan::credit_allowance))]
pub fn allowance_from(credit: u64, cap: u64) -> Allowance
    requires { CreditFits credit cap }
    ensures { result ≡ credit_allowance credit cap }
{
    Some(credit * 1048576 / cap)
}

// The allowance that a plan gives at opening and, a bundle's, on each month's first day.
#[tactic(auto, unfolding(crate::specs::Plan::plan_allowance))]
pub fn allowance_of(p: Plan, cap: u64) -> Allowance
    requires { BundleFits p.fee cap p.volume }
    ensures { result ≡ plan_allowance p cap }
{
    if prepaid(p.form) {
        return Some(0);
    }
    if is_open(p.form, p.fee, cap, p.volume) {
        return Some(2 * p.fee * 1048576 / cap);
    }
    None
}
