// The published worked examples of the sources, through the functions of the meter. A line that it prints starts with
// the example's number, or that of a marked figure of 01, or with a day, where it tells the rows read (02, 2/13);
// comments name source and place. The file `stdout` was written by hand from the published figures. Lek are read as
// points.
#![tactic(auto)]

mod bundles; // bundles.rt: open bundles, their limits and charges
mod calls; // calls.rt: the first half minute of a call, through a whole account
mod lines; // lines.rt: what is printed
mod prepaid; // prepaid.rt: limits and charges of a credit
mod windows; // windows.rt: zone days and service states, through whole accounts

use std::io;

// 002 article 25, the surcharges of 2024; figures 5, 10 and 11.
fn caps_and_figures(rt: &impl Print) -> io::Result<()> {
    let caps = tariff::caps::caps_of(730);
    println!(rt;
        "E22 caps {} {} {} {}",
        caps.kb, caps.outgoing, caps.incoming, caps.sms
    )?;
    lines::open_line(rt, "figure 5", 77000, 77000, 1048576)?;
    let last = tariff::caps::caps_of(1460);
    println!(rt; "figure 10 cap {}", last.kb)?;
    let first = tariff::caps::caps_of(1461);
    println!(rt; "figure 11 cap {}", first.kb)
}

// 02, 2/13: how many rows the search reads on a day, and the data cap that it finds.
fn search_line(rt: &impl Print, day: u64) -> io::Result<()> {
    let found = tariff::caps::find_caps(day);
    println!(rt; "day {day} rows {} cap {}", found.read, found.caps.kb)
}

// The first and the last day of rows of the table, by 01 and by 02's rule of counting.
fn rows_read(rt: &impl Print) -> io::Result<()> {
    search_line(rt, 181)?;
    search_line(rt, 364)?;
    search_line(rt, 365)?;
    search_line(rt, 1825)?;
    search_line(rt, 1826)?;
    search_line(rt, 3833)
}

fn main(rt: HostRuntime) -> io::Result<()> {
    bundles::published_in_004(&rt)?;
    bundles::examples_1_to_3(&rt)?;
    bundles::example_4(&rt)?;
    bundles::example_5(&rt)?;
    bundles::examples_6_and_7(&rt)?;
    bundles::example_8(&rt)?;
    prepaid::example_9(&rt)?;
    prepaid::example_10(&rt)?;
    prepaid::example_11(&rt)?;
    prepaid::illustrations(&rt)?;
    caps_and_figures(&rt)?;
    rows_read(&rt)?;
    windows::of_123_days(&rt)?;
    windows::of_15_days(&rt)?;
    windows::with_off_days(&rt)?;
    windows::from_day_181(&rt)?;
    calls::first_half_minute(&rt)
}
