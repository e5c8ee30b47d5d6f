// Bundles of the sources 004 (cap 7.70 euro per GB) and 000 (cap 970 lek per GB). The home price is 500 per GB where
// the source names none.
ghost use Rattle.tariff.specs.Plan.{BundleFits};

use super::lines::{limit_line, open_line, plan, split_line, use_line};
use std::io;
use tariff::{Form, Plan};

// Is the bundle open, and what is its limit?
fn bundle_lines(rt: &impl Print, name: &str, p: Plan, cap: u64) -> io::Result<()>
    requires { BundleFits p.fee cap p.volume }
{
    open_line(rt, name, p.fee, cap, p.volume)?;
    limit_line(rt, name, tariff::plans::allowance_of(p, cap))
}

// 004, "Open data bundles" C, Examples 1 and 2. E3 has no volume limit.
pub fn published_in_004(rt: &impl Print) -> io::Result<()> {
    open_line(rt, "E1", 100000, 77000, 3145728)?;
    bundle_lines(rt, "E2", plan(Form::Bundle, 500, 100000, 1048576), 77000)?;
    let unlimited = plan(Form::Unlimited, 0, 900000, 0);
    limit_line(rt, "E3", tariff::plans::allowance_of(unlimited, 77000))?;
    let p = plan(Form::Bundle, 500, 100000, 2097152);
    bundle_lines(rt, "E4", p, 77000)?;
    split_line(
        rt,
        "E4",
        p,
        tariff::plans::allowance_of(p, 77000),
        0,
        0,
        2723574,
    )
}

// 000, examples 1 to 3. E8 has no volume limit.
pub fn examples_1_to_3(rt: &impl Print) -> io::Result<()> {
    bundle_lines(rt, "E6", plan(Form::Bundle, 500, 1000, 3145728), 970)?;
    bundle_lines(rt, "E7", plan(Form::Bundle, 500, 1000, 1048576), 970)?;
    let unlimited = plan(Form::Unlimited, 0, 9000, 0);
    limit_line(rt, "E8", tariff::plans::allowance_of(unlimited, 970))
}

// 000, example 4: the limit lies above the volume.
pub fn example_4(rt: &impl Print) -> io::Result<()> {
    let p = plan(Form::Bundle, 500, 1000, 2097152);
    let l = tariff::plans::allowance_of(p, 970);
    bundle_lines(rt, "E9", p, 970)?;
    split_line(rt, "E9", p, l, 0, 0, 2162012)?;
    use_line(rt, "E9", p, l, 970, 0, 2097152)?;
    use_line(rt, "E9", p, l, 970, 2097152, 64860)?;
    use_line(rt, "E9", p, l, 970, 2162012, 1)?;
    split_line(rt, "E9", p, l, 2162012, 2162012, 1)?;
    use_line(rt, "E9", p, l, 970, 2162013, 1048576)
}

// 000, example 5: the limit lies below the volume.
pub fn example_5(rt: &impl Print) -> io::Result<()> {
    let p = plan(Form::Bundle, 500, 2000, 7340032);
    let l = tariff::plans::allowance_of(p, 970);
    bundle_lines(rt, "E10", p, 970)?;
    split_line(rt, "E10", p, l, 0, 0, 7340032)?;
    use_line(rt, "E10", p, l, 970, 4324024, 3016008)?;
    use_line(rt, "E10", p, l, 970, 7340032, 1048576)
}

// 000, examples 6 (the fee of the mobile part alone) and 7 (1000 MB, which the source takes as 1 GB).
pub fn examples_6_and_7(rt: &impl Print) -> io::Result<()> {
    bundle_lines(rt, "E11", plan(Form::Bundle, 500, 2500, 10485760), 970)?;
    let p = plan(Form::Bundle, 500, 600, 1048576);
    bundle_lines(rt, "E12 1 GB", p, 970)?;
    split_line(
        rt,
        "E12 1 GB",
        p,
        tariff::plans::allowance_of(p, 970),
        0,
        0,
        1297207,
    )?;
    let q = plan(Form::Bundle, 500, 600, 1024000);
    bundle_lines(rt, "E12 1000 MB", q, 970)?;
    split_line(
        rt,
        "E12 1000 MB",
        q,
        tariff::plans::allowance_of(q, 970),
        0,
        0,
        1297207,
    )
}

// 000, example 8: 3 of 5 GB used at home. The fee is chosen to give the source's limit of 3 GB.
pub fn example_8(rt: &impl Print) -> io::Result<()> {
    let form = Form::Bundle;
    let p = plan(form, 500, 1455, 5242880);
    let l = tariff::plans::allowance_of(p, 970);
    bundle_lines(rt, "E13", p, 970)?;
    split_line(
        rt,
        "E13",
        p,
        l,
        tariff::charges::counted_of(form, 3145728),
        0,
        2097152,
    )?;
    split_line(
        rt,
        "E13",
        p,
        l,
        tariff::charges::counted_of(form, 5242880),
        2097152,
        1048576,
    )?;
    split_line(
        rt,
        "E13",
        p,
        l,
        tariff::charges::counted_of(form, 6291456),
        3145728,
        1,
    )
}
