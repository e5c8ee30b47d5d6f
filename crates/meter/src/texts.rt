// The text of calls: read into the caller's lists, and written into the caller's buffer.
ghost use Rattle.std.specs.Prelude.{◌≡◌, ◌≤◌, length};
ghost use Rattle.meter.specs.Texts.{text_code, text_laid, text_read_code, text_read_laid, text_read_list};
ghost use Rattle.meter.specs.Texts.{text_write_code, text_write_laid, text_write_buffer};
ghost use Rattle.tripfile.specs.Bodies.{codes_of, numbers_of};
ghost use Rattle.textlines.specs.Text.{calls_of};

use super::files::put_written;
use super::put_number;
use tariff::Refusal;
use textlines::TextError;

// What reading answered: how many calls there are, or the line that is not of the form.
fn put_read(out: &mut [u64], r: Result<usize, TextError>) -> u64
    requires { 1 ≤ length out.old }
    ensures code { result ≡ text_code r }
    ensures answered { out.new ≡ text_laid r out.old }
{
    match r {
        Ok(n) => {
            put_number(out, n as u64);
            1000
        }
        Err(TextError::BadLine(line)) => {
            put_number(out, line as u64);
            Refusal::LineForm.into()
        }
        Err(TextError::Refused(refusal)) => refusal.into(),
    }
}

// Reads the calls of a text into the lists: 21, 22, 16.
#[tactic(auto, unfolding(crate::specs::Texts::text_read_code, crate::specs::Texts::text_read_laid, crate::specs::Texts::text_read_list))]
pub fn meter_text_read(
    text: &[u8],
    codes: &mut [u32],
    numbers: &mut [u32],
    answer: &mut [u64],
) -> u64
    ensures code { result ≡ text_read_code text.now codes.old numbers.old
        answer.old }
    ensures first { codes.new ≡ text_read_list text.now codes.old
        numbers.old answer.old (codes_of (calls_of text.now)) codes.old }
    ensures second { numbers.new ≡ text_read_list text.now codes.old
        numbers.old answer.old (numbers_of (calls_of text.now))
        numbers.old }
    ensures answered { answer.new ≡ text_read_laid text.now codes.old
        numbers.old answer.old }
{
    if answer.len() < 1 {
        return 1001;
    }
    put_read(answer, textlines::reading::read(text, codes, numbers))
}

// Writes the calls as text into the buffer: 14, 15, 21, 16.
#[tactic(auto, unfolding(crate::specs::Texts::text_write_code, crate::specs::Texts::text_write_laid, crate::specs::Texts::text_write_buffer))]
pub fn meter_text_write(codes: &[u32], numbers: &[u32], text: &mut [u8], answer: &mut [u64]) -> u64
    ensures code { result ≡ text_write_code codes.now numbers.now text.old
        answer.old }
    ensures written { text.new ≡ text_write_buffer codes.now numbers.now
        text.old answer.old }
    ensures answered { answer.new ≡ text_write_laid codes.now numbers.now
        text.old answer.old }
{
    if answer.len() < 1 {
        return 1001;
    }
    put_written(answer, textlines::export::export(codes, numbers, text))
}
