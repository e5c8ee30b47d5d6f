// Text in a lent buffer: pieces of bytes one after the other, and numbers in decimal; and numbers read from digits.
#![tactic(auto)]

ghost use Rattle.std.specs.Prelude.{◌≡◌, ◌+◌, ◌-◌, ◌*◌, ◌≤◌, ◌<◌, min, length};
ghost use Rattle.text.specs.Text.{placed, digit, decimal};
ghost use Rattle.text.specs.Claims.{DecimalReadsBack};
ghost use Rattle.text.specs.Reading.{no_leading_zero, figure_of, DigitsAreDecimal};

// What bytes read as: the number, held at 4,294,967,296, and whether they are the decimal text of a number.
// kept: no Option, since `read_decimal` promises the value of bytes that are no number's text, too.
#[derive(Clone, Copy)]
pub struct Figure {
    pub value: u64,
    pub right: bool,
}

// The byte of a digit.
fn digit_byte(d: u64) -> u8
    requires { d < 10 }
    ensures { result ≡ digit d }
{
    b'0' + d as u8
}

// Puts bytes into the buffer from place `at` on, and answers the place after them.
#[tactic(auto, unfolding(crate::specs::Text::placed))]
pub fn put_bytes(bytes: &[u8], at: usize, buf: &mut [u8]) -> usize
    requires { at + length bytes.now ≤ length buf.old }
    ensures end { result ≡ at + length bytes.now }
    ensures buffer { buf.new ≡ placed buf.old at bytes.now }
{
    let end = at + bytes.len();
    buf[at..end].copy_from_slice(bytes);
    end
}

// How many digits a number has.
#[tactic(auto, using(crate::proofs::Decimals::length_by_log))]
pub fn decimal_length(n: u64) -> usize
    ensures { result ≡ length (decimal n) }
{
    n.max(1).ilog10() as usize + 1
}

// Puts a number in decimal into the buffer from place `at` on, and answers the place after its last digit.
#[tactic(auto, using(crate::proofs::Decimals::length_small, crate::proofs::Decimals::length_more, crate::proofs::Decimals::put_digit, crate::proofs::Decimals::put_last))]
pub fn put_decimal(n: u64, at: usize, buf: &mut [u8]) -> usize
    requires { at + length (decimal n) ≤ length buf.old }
    ensures end { result ≡ at + length (decimal n) }
    ensures buffer { buf.new ≡ placed buf.old at (decimal n) }
{
    if n < 10 {
        buf[at] = digit_byte(n);
        return at + 1;
    }
    let last = put_decimal(n / 10, at, buf);
    buf[last] = digit_byte(n % 10);
    last + 1
}

// One digit more, held at 4,294,967,296.
fn with_digit(n: u64, d: u8) -> u64
    requires { n ≤ 4294967296 }
    ensures { result ≡ min (10 * n + (d - 48)) 4294967296 }
{
    (10 * n + u64::from(d.saturating_sub(b'0'))).min(4294967296)
}

// Is there a byte, and of two or more is the first not `0`?
#[tactic(auto, unfolding(crate::specs::Reading::no_leading_zero))]
fn is_short(digits: &[u8]) -> bool
    ensures { result ≡ no_leading_zero digits.now }
{
    match digits {
        [] => false,
        [_] => true,
        [first, ..] => b'0' < *first,
    }
}

// The number that bytes read as, and whether they are its decimal text.
pub fn read_decimal(digits: &[u8]) -> Figure
    ensures { result ≡ figure_of digits.now }
{
    let mut value = 0;
    let mut right = true;
    for d in digits {
        value = with_digit(value, *d);
        right &= d.is_ascii_digit();
    }
    Figure {
        value,
        right: right && is_short(digits),
    }
}

// The decimal text of each number reads back as the number, and is as short as it can be.
pub fn decimal_reads_back()
    ensures { DecimalReadsBack }
{}

// Digits without a leading zero are the decimal text of the number that they read as.
#[tactic(auto, using(crate::proofs::Decimals::spelled_again))]
pub fn digits_are_decimal()
    ensures { DigitsAreDecimal }
{}
