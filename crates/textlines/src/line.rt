// One line: put into a buffer, and read.
ghost use Rattle.std.specs.Prelude.{◌≡◌, true, ◌+◌, ◌≤◌, length};
ghost use Rattle.text.specs.Text.{placed};
ghost use Rattle.text.specs.Reading.{figure_of};
ghost use Rattle.tripfile.specs.Bodies.{call};
ghost use Rattle.textlines.specs.Line.{heading, line, code_by, code_in, digits_in, number_in};
ghost use Rattle.textlines.specs.Line.{framed_as, right_line};

use text::Figure;
use tripfile::calls;

// The name of a code, and the comma.
#[tactic(auto, unfolding(crate::specs::Line::heading, crate::specs::Line::name))]
fn heading_of(code: u32) -> &'static [u8]
    ensures { result.now ≡ heading code }
{
    match code {
        1 => b"register,".as_slice(),
        2 => b"data,".as_slice(),
        3 => b"out,".as_slice(),
        4 => b"in,".as_slice(),
        5 => b"sms,".as_slice(),
        6 => b"topup,".as_slice(),
        7 => b"nextday,".as_slice(),
        _ => b",".as_slice(),
    }
}

// The length of the line of a call.
pub(crate) fn line_length(code: u32, number: u32) -> usize
    ensures counts { result ≡ length (line (call code number)) }
    ensures few { result ≤ 30 }
{
    heading_of(code).len() + text::decimal_length(u64::from(number)) + 1
}

// Puts the line of a call into the buffer from place `at` on, and answers the place after it.
pub(crate) fn put_line(code: u32, number: u32, at: usize, buf: &mut [u8]) -> usize
    requires { at + length (line (call code number)) ≤ length buf.old }
    ensures end { result ≡ at + length (line (call code number)) }
    ensures buffer { buf.new ≡ placed buf.old at (line (call code number)) }
{
    let figure = text::put_bytes(heading_of(code), at, buf);
    let feed = text::put_decimal(u64::from(number), figure, buf);
    text::put_bytes(b"\n", feed, buf)
}

// The code whose name begins with a byte, or 0.
// Kept: a code, as the lent lists hold it, also where the line is none of the form.
fn code_by(b: u8) -> u32
    ensures { result ≡ code_by b }
{
    match b {
        b'r' => 1,
        b'd' => 2,
        b'o' => 3,
        b'i' => 4,
        b's' => 5,
        b't' => 6,
        b'n' => 7,
        _ => 0,
    }
}

// The only code that a line can have.
#[tactic(auto, unfolding(crate::specs::Line::code_in))]
pub(crate) fn code_of(s: &[u8]) -> u32
    ensures { result ≡ code_in s.now }
{
    match s {
        [] => 0,
        [first, ..] => code_by(*first),
    }
}

// What stands in a line of a code between comma and line feed.
#[tactic(auto, using(crate::proofs::OneLine::no_digits), unfolding(crate::specs::Line::digits_in))]
fn figure_in(s: &[u8], code: u32) -> Figure
    ensures { result ≡ figure_of (digits_in code s.now) }
{
    let a = heading_of(code).len();
    let n = s.len();
    if n <= a {
        return text::read_decimal(&[]);
    }
    text::read_decimal(&s[a..n - 1])
}

// The only number that a line of a code can have.
#[tactic(auto, unfolding(crate::specs::Line::number_in, text::specs::Reading::figure_of))]
pub(crate) fn number_of(s: &[u8], code: u32) -> u32
    ensures { result ≡ number_in code s.now }
{
    figure_in(s, code).value.min(4294967295) as u32
}

// Does the line begin with the name of a code and a comma, and end in a line feed?
fn is_framed(s: &[u8], code: u32) -> bool
    ensures { (result ≡ true → s.now ≡ framed_as code s.now)
        × (s.now ≡ framed_as code s.now → result ≡ true) }
{
    let heading = heading_of(code);
    let a = heading.len();
    let n = s.len();
    if n <= a {
        return false;
    }
    (&s[..a] == heading) & (s[n - 1] == b'\n')
}

// 22: is the line of the form?
pub(crate) fn is_right(s: &[u8]) -> bool
    ensures { result ≡ right_line s.now }
{
    let code = code_of(s);
    let figure = figure_in(s, code);
    if figure.value > 4294967295 {
        return false;
    }
    let right = calls::call_right(code, figure.value as u32);
    let framed = is_framed(s, code);
    right & figure.right & framed
}
