// The lines that the examples print, each worked out by the functions of `tariff`.
ghost use Rattle.std.specs.Prelude.{◌≡◌, ◌+◌, ◌≤◌};
ghost use Rattle.tariff.specs.Plan.{BundleFits};

use std::io;
use tariff::{Allowance, Form, Kind, Plan};

// A plan with a data price, for the examples.
pub fn plan(form: Form, price: u64, fee: u64, volume: u64) -> Plan
    ensures { (result.pergb ≡ price) × (result.perminute ≡ 0) × (result.persms ≡ 0)
        × (result.fee ≡ fee) × (result.volume ≡ volume) }
{
    Plan {
        form,
        start: 181,
        pergb: price,
        perminute: 0,
        persms: 0,
        fee,
        volume,
    }
}

// Is the bundle open?
pub fn open_line(rt: &impl Print, name: &str, fee: u64, cap: u64, volume: u64) -> io::Result<()>
    requires { BundleFits fee cap volume }
{
    let told = if tariff::plans::is_open(Form::Bundle, fee, cap, volume) {
        "open"
    } else {
        "closed"
    };
    println!(rt; "{name} {told}")
}

// A zone data limit.
pub fn limit_line(rt: &impl Print, name: &str, l: Allowance) -> io::Result<()> {
    match l {
        None => println!(rt; "{name} limit none"),
        Some(n) => println!(rt; "{name} limit {n}"),
    }
}

// Which of n zone kB bear the home price and the surcharge, after h kB of the month and r zone kB.
pub fn split_line(
    rt: &impl Print,
    name: &str,
    p: Plan,
    l: Allowance,
    h: u64,
    r: u64,
    n: u64,
) -> io::Result<()> {
    let priced = tariff::charges::billed_of(p.form, p.volume, h, n);
    let surcharged = tariff::charges::past_allowance(l, r, n);
    println!(rt; "{name} kB {n} priced {priced} surcharged {surcharged}")
}

// kept: bounds of the three prices are a clause of four functions. A plan has any numbers (`plan_with`), and a type with
// the bounds in it would stand for the same seven numbers in the examples alone.

// Home charges of the month's first n kB.
#[tactic(auto, using(tariff::proofs::ChargeLaws::billed_bounded, tariff::proofs::ChargeLaws::home_charges_bounded))]
fn home_points(p: Plan, n: u64) -> u64
    requires { (p.pergb ≤ 1000000) × (p.perminute ≤ 1000000) × (p.persms ≤ 1000000) × (n ≤ 1000000000) }
    ensures { result ≤ 2000000000000000000 }
{
    let kb = tariff::charges::billed_of(p.form, p.volume, 0, n);
    tariff::charges::home_of(p, tariff::amounts::only_of(Kind::Data, kb))
}

// Surcharges of the first n zone kB.
#[tactic(auto, using(tariff::proofs::ChargeLaws::after_allowance_bounded, tariff::proofs::ChargeLaws::surcharges_bounded))]
fn surcharge_points(l: Allowance, cap: u64, n: u64) -> u64
    requires { (cap ≤ 1000000) × (n ≤ 1000000000) }
    ensures { result ≤ 2000000000000000000 }
{
    let kb = tariff::charges::past_allowance(l, 0, n);
    let rate = tariff::amounts::only_of(Kind::Data, cap);
    let basis = tariff::amounts::times(rate, tariff::amounts::only_of(Kind::Data, kb));
    tariff::charges::surcharges_from(basis)
}

// What a use of n zone kB takes, after m others of the month.
pub fn use_line(
    rt: &impl Print,
    name: &str,
    p: Plan,
    l: Allowance,
    cap: u64,
    m: u64,
    n: u64,
) -> io::Result<()>
    requires { (p.pergb ≤ 1000000) × (p.perminute ≤ 1000000) × (p.persms ≤ 1000000) × (cap ≤ 1000000)
        × (m + n ≤ 1000000000) }
{
    let home = home_points(p, m + n).saturating_sub(home_points(p, m));
    let extra = surcharge_points(l, cap, m + n).saturating_sub(surcharge_points(l, cap, m));
    println!(rt; "{name} use {n} home {home} extra {extra}")
}

// The credit that is left after n zone kB, or that they are refused.
pub fn credit_line(
    rt: &impl Print,
    name: &str,
    credit: u64,
    p: Plan,
    l: Allowance,
    cap: u64,
    n: u64,
) -> io::Result<()>
    requires { (p.pergb ≤ 1000000) × (p.perminute ≤ 1000000) × (p.persms ≤ 1000000) × (cap ≤ 1000000)
        × (n ≤ 1000000000) }
{
    let cost = home_points(p, n) + surcharge_points(l, cap, n);
    if cost > credit {
        return println!(rt; "{name} after {n} kB refused");
    }
    println!(rt; "{name} after {n} kB credit {}", credit - cost)
}

// What n kB cost at the home price.
pub fn cost_line(rt: &impl Print, name: &str, p: Plan, n: u64) -> io::Result<()>
    requires { (p.pergb ≤ 1000000) × (p.perminute ≤ 1000000) × (p.persms ≤ 1000000) × (n ≤ 1000000000) }
{
    println!(rt; "{name} kB {n} cost {}", home_points(p, n))
}
