// The caps of a day, and the search for them (caps-1 to caps-3, rows-1, rows-2).
ghost use Rattle.std.specs.Prelude.{◌≡◌, ◌+◌, ◌-◌, ◌*◌, ◌/◌, ◌<◌};
ghost use Rattle.tariff.specs.Caps.{number, row_at, built_in, caps_on, rows_read, search_of, Searchable};

use super::{Found, Row, Table, Units};

// The six rows (caps-1), and room for two more.
const NUMBERS: [u32; 40] = [
    // from day 181 on
    181, 20000, 220, 55, 40,
    // from day 365 on
    365, 18000, 220, 40, 40,
    // from day 730 on
    730, 15500, 220, 20, 40,
    // from day 1096 on
    1096, 13000, 190, 20, 30,
    // from day 1461 on
    1461, 11000, 190, 20, 30,
    // from day 1826 on
    1826, 10000, 190, 20, 30,
    // no more rows
    0, 0, 0, 0, 0, 0, 0, 0, 0, 0,
];

// The built-in table.
#[tactic(auto, unfolding(crate::specs::Caps::built_in, crate::specs::Caps::table_of))]
fn table_built_in() -> Table
    ensures { result ≡ built_in }
{
    Table {
        count: 6,
        numbers: NUMBERS,
    }
}

// Number k of row i.
fn number_at(t: &Table, i: usize, k: usize) -> u64
    requires { (i < 8) × (k < 5) }
    ensures { result ≡ number t.now.numbers i k }
{
    u64::from(t.numbers[5 * i + k])
}

// Row i.
#[tactic(auto, unfolding(crate::specs::Caps::row_at))]
fn row_at(t: &Table, i: usize) -> Row
    requires { i < 8 }
    ensures { result ≡ row_at t.now.numbers i }
{
    Row {
        first: number_at(t, i, 0),
        caps: Units {
            kb: number_at(t, i, 1),
            outgoing: number_at(t, i, 2),
            incoming: number_at(t, i, 3),
            sms: number_at(t, i, 4),
        },
    }
}

// How many of the rows are read for a day, from the last one back, up to one that has begun.
#[tactic(auto, using(crate::proofs::CapLaws::reading_first, crate::proofs::CapLaws::reading_next, crate::proofs::CapLaws::reading_ends, crate::proofs::CapLaws::reading_all))]
fn rows_read(t: &Table, count: usize, day: u64) -> usize
    requires { Searchable count }
    ensures { result ≡ rows_read t.now.numbers count day }
{
    for read in 1..count {
        if number_at(t, count - read, 0) <= day {
            return read;
        }
    }
    count
}

// The caps of a day, and how many rows were read. The table is lent.
#[tactic(auto, using(crate::proofs::CapLaws::reads_at_most, crate::proofs::CapLaws::reads_some), unfolding(crate::specs::Caps::search_of))]
fn search(t: &Table, day: u64) -> Found
    requires { Searchable t.now.count }
    ensures { result ≡ search_of t.now day }
{
    let count = t.count as usize;
    let read = rows_read(t, count, day);
    Found {
        caps: row_at(t, count - read).caps,
        read: read as u64,
    }
}

// The caps of a day by the built-in table, and how many rows were read. Any day will do.
#[tactic(auto, unfolding(crate::specs::Caps::built_in, crate::specs::Caps::table_of))]
pub fn find_caps(day: u64) -> Found
    ensures { result ≡ search_of built_in day }
{
    search(&table_built_in(), day)
}

// The caps of a day by the built-in table. Any day will do.
#[tactic(auto, using(crate::proofs::CapLaws::search_finds_caps))]
pub fn caps_of(day: u64) -> Units
    ensures { result ≡ caps_on built_in day }
{
    find_caps(day).caps
}
