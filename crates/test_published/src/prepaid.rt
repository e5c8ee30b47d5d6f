// Prepaid credits of source 000, at a cap of 970 lek per GB.
use super::lines::{cost_line, credit_line, limit_line, plan, use_line};
use account::Account;
use state::Outcome;
use std::io;
use tariff::{Form, Kind};

// The largest use of data at home that an account with this price and credit accepts.
fn afford_line(rt: &impl Print, name: &str, price: u64, credit: u32) -> io::Result<()> {
    let opened = Account::open(plan(Form::Prepaid, price, 0, 0));
    let coded = [6u32, credit, 1, 0];
    let mut calls = [0u8; 16];
    words::put_words(&mut calls, &coded);
    let ready = replay::replay(&calls, opened.account);
    match ready.account.afford(Kind::Data).answer {
        Ok(Outcome::UpTo(n)) => println!(rt; "{name} afford {n}"),
        Ok(Outcome::Done) => println!(rt; "{name} done"),
        Ok(Outcome::Charged(_)) => println!(rt; "{name} charged"),
        Err(refusal) => println!(rt; "{name} refused {refusal}"),
    }
}

// Example 9: credit 1000 at 20 lek per MB. The credit ends before the limit.
pub fn example_9(rt: &impl Print) -> io::Result<()> {
    let p = plan(Form::Prepaid, 20480, 0, 0);
    let l = tariff::plans::allowance_from(1000, 970);
    limit_line(rt, "E14", l)?;
    use_line(rt, "E14", p, l, 970, 0, 51200)?;
    use_line(rt, "E14", p, l, 970, 51200, 51)?;
    credit_line(rt, "E14", 1000, p, l, 970, 51251)?;
    credit_line(rt, "E14", 1000, p, l, 970, 51252)?;
    afford_line(rt, "E14", 20480, 1000)
}

// Example 10: credit 2000 at 500 lek per GB.
pub fn example_10(rt: &impl Print) -> io::Result<()> {
    let p = plan(Form::Prepaid, 500, 0, 0);
    limit_line(rt, "E15", tariff::plans::allowance_from(2000, 970))?;
    cost_line(rt, "E15", p, 4194304)?;
    afford_line(rt, "E15", 500, 2000)
}

// Example 11: all of that limit used, and more.
pub fn example_11(rt: &impl Print) -> io::Result<()> {
    let p = plan(Form::Prepaid, 500, 0, 0);
    let l = tariff::plans::allowance_from(2000, 970);
    cost_line(rt, "E16", p, 2162012)?;
    credit_line(rt, "E16", 2000, p, l, 970, 2162012)?;
    use_line(rt, "E16", p, l, 970, 2162012, 692211)?;
    credit_line(rt, "E16", 2000, p, l, 970, 2854223)?;
    credit_line(rt, "E16", 2000, p, l, 970, 2854224)?;
    use_line(rt, "E17", p, l, 970, 2162012, 1048576)?;
    credit_line(rt, "E17", 2000, p, l, 970, 3210588)
}

// Paragraph 101: credits of 500 and 1000.
pub fn illustrations(rt: &impl Print) -> io::Result<()> {
    limit_line(rt, "E18", tariff::plans::allowance_from(500, 970))?;
    limit_line(rt, "E18", tariff::plans::allowance_from(1000, 970))
}
