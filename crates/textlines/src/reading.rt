// Reading a text.
ghost use Rattle.std.specs.Prelude.{◌≡◌, ◌≢◌, ℕ, ◌∷◌, ◌≤◌, ◌<◌, length, take, drop, slice_index};
ghost use Rattle.std.specs.Iterator.{YieldsFirstRef, item_count};
ghost use Rattle.text.specs.Text.{placed};
ghost use Rattle.tripfile.specs.Bodies.{codes_of, numbers_of};
ghost use Rattle.textlines.specs.Text.{lines_of, right_lines, calls_of, reading_of, list_after};

use super::{TextError, line};
use tariff::Refusal;

// How many bytes come before the first line feed, or all where there is none.
fn before_feed(text: &[u8]) -> usize
    ensures within { result ≤ length text.now }
    ensures before { (k : ℕ) → k < result → slice_index text.now k ≢ 10 }
    ensures found { result < length text.now → slice_index text.now result ≡ 10 }
{
    text.iter().take_while(|b| **b != b'\n').count()
}

// Where the first line ends: after its line feed, or where the text does.
fn line_end(text: &[u8]) -> usize
    requires { 0 < length text.now }
    ensures within { (0 < result) × (result ≤ length text.now) }
    ensures split { lines_of text.now ≡ take result text.now ∷ lines_of (drop result text.now) }
{
    let n = text.len();
    let e = before_feed(text);
    if e < n { e + 1 } else { e }
}

// The lines of a text that are left.
#[derive(Drop)]
struct Lines<'a> {
    rest: &'a [u8],
}

impl<'a> Iterator for Lines<'a> {
    type Item = &'a [u8];

    ghost next_gives = { YieldsFirstRef (λ l. lines_of l.rest.now) };

    ghost remaining = { item_count (λ l. lines_of l.rest.now) };

    fn next(&mut self) -> Option<&'a [u8]> {
        if self.rest.is_empty() {
            return None;
        }
        let (line, rest) = self.rest.split_at(line_end(self.rest));
        self.rest = rest;
        Some(line)
    }
}

// The number of lines.
fn count_lines(text: &[u8]) -> usize
    ensures { result ≡ length (lines_of text.now) }
{
    Lines { rest: text }.count()
}

// The number of lines before the first that is not of the form.
fn count_right(text: &[u8]) -> usize
    ensures { result ≡ right_lines (lines_of text.now) }
{
    Lines { rest: text }
        .take_while(|l| line::is_right(l))
        .count()
}

// Puts codes and numbers at the start of the lists.
fn fill(text: &[u8], codes: &mut [u32], numbers: &mut [u32])
    requires { (length (lines_of text.now) ≤ length codes.old)
        × (length (lines_of text.now) ≤ length numbers.old) }
    ensures first { codes.new ≡ placed codes.old 0 (codes_of (calls_of text.now)) }
    ensures second { numbers.new ≡ placed numbers.old 0 (numbers_of (calls_of text.now)) }
{
    for (i, line) in (Lines { rest: text }).enumerate() {
        let code = line::code_of(line);
        let number = line::number_of(line, code);
        codes[i] = code;
        numbers[i] = number;
    }
}

// The codes and numbers of a text's calls into the lists, or what declines it, with every place as it was: 21, 22, 16.
pub fn read(text: &[u8], codes: &mut [u32], numbers: &mut [u32]) -> Result<usize, TextError>
    ensures answer { result
        ≡ reading_of text.now (length codes.old) (length numbers.old) }
    ensures first { codes.new ≡ list_after result (codes_of (calls_of text.now)) codes.old }
    ensures second { numbers.new ≡ list_after result (numbers_of (calls_of text.now)) numbers.old }
{
    let lines = count_lines(text);
    if !(((1 <= lines) & (lines <= 8184)) & (text.len() <= 65536)) {
        return Err(TextError::Refused(Refusal::TextLength));
    }
    let right = count_right(text);
    if right < lines {
        return Err(TextError::BadLine(right + 1));
    }
    if (codes.len() < lines) | (numbers.len() < lines) {
        return Err(TextError::Refused(Refusal::NoRoom));
    }
    fill(text, codes, numbers);
    Ok(lines)
}
