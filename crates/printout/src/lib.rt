// The text that the program `statement` prints, put into a lent buffer (statement-1 to statement-3).
#![tactic(auto)]

ghost use Rattle.std.specs.Prelude.{◌≡◌, ◌+◌, ◌≤◌, length};
ghost use Rattle.text.specs.Text.{placed, decimal};
ghost use Rattle.printout.specs.Printout.{ended, limit_line, money_lines, data_lines, text_of, statement_text};

use report::Figures;
use tariff::{Allowance, Refusal};

// Puts a name with its space, a figure and a line feed into the buffer from place `at` on, and answers the place after
// them.
#[tactic(auto, using(text::proofs::Decimals::u64_digits))]
fn put_line(name: &[u8], n: u64, at: usize, buf: &mut [u8]) -> usize
    requires { at + length name.now + 21 ≤ length buf.old }
    ensures end { result ≡ at + length (ended name.now (decimal n)) }
    ensures room { result ≤ at + length name.now + 21 }
    ensures buffer { buf.new ≡ placed buf.old at (ended name.now (decimal n)) }
{
    let figure = text::put_bytes(name, at, buf);
    let feed = text::put_decimal(n, figure, buf);
    text::put_bytes(b"\n", feed, buf)
}

// The same for the limit, which may be none.
#[tactic(auto, unfolding(crate::specs::Printout::limit_line))]
fn put_limit(l: Allowance, at: usize, buf: &mut [u8]) -> usize
    requires { at + 27 ≤ length buf.old }
    ensures end { result ≡ at + length (limit_line l) }
    ensures room { result ≤ at + 27 }
    ensures buffer { buf.new ≡ placed buf.old at (limit_line l) }
{
    match l {
        None => text::put_bytes(b"limit none\n", at, buf),
        Some(n) => put_line(b"limit ", n, at, buf),
    }
}

// Puts the lines of day, payments and charges at the start of the buffer.
#[tactic(auto, unfolding(crate::specs::Printout::money_lines))]
fn put_money(f: Figures, buf: &mut [u8]) -> usize
    requires { 132 ≤ length buf.old }
    ensures end { result ≡ length (money_lines f) }
    ensures room { result ≤ 132 }
    ensures buffer { buf.new ≡ placed buf.old 0 (money_lines f) }
{
    let mut at = put_line(b"day ", f.day, 0, buf);
    at = put_line(b"paid ", f.paid, at, buf);
    at = put_line(b"credit ", f.credit, at, buf);
    at = put_line(b"home ", f.home, at, buf);
    put_line(b"extra ", f.extra, at, buf)
}

// Puts the lines of zone data and refused calls into the buffer from place `at` on.
#[tactic(auto, unfolding(crate::specs::Printout::data_lines))]
fn put_data(f: Figures, at: usize, buf: &mut [u8]) -> usize
    requires { at + 110 ≤ length buf.old }
    ensures end { result ≡ at + length (data_lines f) }
    ensures room { result ≤ at + 110 }
    ensures buffer { buf.new ≡ placed buf.old at (data_lines f) }
{
    let mut next = put_limit(f.limit, at, buf);
    next = put_line(b"roamed ", f.roamed, next, buf);
    next = put_line(b"past ", f.past, next, buf);
    put_line(b"refused ", f.refused as u64, next, buf)
}

// Puts the text of a report at the start of the buffer, and answers its length. The nine names with their spaces have
// 53 bytes, a figure has 20 digits at most, and each line ends in a line feed: no text is longer than 242 bytes.
#[tactic(auto, unfolding(crate::specs::Printout::text_of))]
pub fn put_report(r: Result<Figures, Refusal>, buf: &mut [u8; 242]) -> usize
    ensures end { result ≡ length (text_of r) }
    ensures room { result ≤ length buf.new }
    ensures buffer { buf.new ≡ placed buf.old 0 (text_of r) }
{
    match r {
        Ok(f) => {
            let at = put_money(f, buf);
            put_data(f, at, buf)
        }
        Err(refusal) => put_line(b"file ", u64::from(refusal), 0, buf),
    }
}

// The same from the bytes of a trip file.
pub fn put_statement(file: &[u8], buf: &mut [u8; 242]) -> usize
    ensures end { result ≡ length (statement_text file.now) }
    ensures room { result ≤ length buf.new }
    ensures buffer { buf.new ≡ placed buf.old 0 (statement_text file.now) }
{
    put_report(report::statement_of(file), buf)
}
