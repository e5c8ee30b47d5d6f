// Exporting calls as text.
ghost use Rattle.std.specs.Prelude.{◌≡◌, ◌≤◌, length};
ghost use Rattle.text.specs.Text.{placed};
ghost use Rattle.tripfile.specs.Bodies.{paired};
ghost use Rattle.textlines.specs.Text.{text_of, export_verdict, exported_of, buffer_of};

use super::line;
use tariff::{Refusal, Verdict};
use tripfile::writing;

// The length of the text of calls.
// kept: two lists here and in `put_text`, since the C interface lends two.
#[tactic(auto, using(crate::proofs::Putting::text_long_more, crate::proofs::Putting::text_all), unfolding(crate::specs::Text::text_of))]
fn text_length(codes: &[u32], numbers: &[u32]) -> usize
    requires { (length codes.now ≤ 8184) × (length numbers.now ≡ length codes.now) }
    ensures { result ≡ length (text_of (paired codes.now numbers.now)) }
{
    let mut total = 0;
    for (code, number) in codes.iter().zip(numbers) {
        total += line::line_length(*code, *number);
    }
    total
}

// Puts the text of calls at the start of the buffer, and answers its length.
#[tactic(auto, using(crate::proofs::Putting::put_room))]
fn put_text(codes: &[u32], numbers: &[u32], buf: &mut [u8]) -> usize
    requires { (length numbers.now ≡ length codes.now)
        × (length (text_of (paired codes.now numbers.now)) ≤ length buf.old) }
    ensures size { result ≡ length (text_of (paired codes.now numbers.now)) }
    ensures bytes { buf.new
        ≡ placed buf.old 0 (text_of (paired codes.now numbers.now)) }
{
    let mut at = 0;
    for (code, number) in codes.iter().zip(numbers) {
        at = line::put_line(*code, *number, at, buf);
    }
    at
}

// What an export is declined for: 14, 15, 21, 16.
#[tactic(auto, unfolding(crate::specs::Text::export_verdict, crate::specs::Text::export_reasons, tariff::specs::Tests::verdict_of))]
fn verdict_on(codes: &[u32], numbers: &[u32], room: usize) -> Verdict
    ensures { result ≡ export_verdict codes.now numbers.now room }
{
    let n = codes.len();
    if n == 0 || n > 8184 || numbers.len() != n {
        return Err(Refusal::BodyLength);
    }
    if !writing::pairs_right(codes, numbers) {
        return Err(Refusal::CallForm);
    }
    let size = text_length(codes, numbers);
    if size > 65536 {
        return Err(Refusal::TextLength);
    }
    if room < size {
        return Err(Refusal::NoRoom);
    }
    Ok(())
}

// The text of calls into the buffer, or why it is declined, with every byte as it was: 14, 15, 21, 16.
#[tactic(auto, unfolding(crate::specs::Text::exported_of, crate::specs::Text::buffer_of))]
pub fn export(codes: &[u32], numbers: &[u32], buf: &mut [u8]) -> Result<usize, Refusal>
    ensures answer { result ≡ exported_of codes.now numbers.now buf.old }
    ensures buffer { buf.new ≡ buffer_of codes.now numbers.now buf.old }
{
    verdict_on(codes, numbers, buf.len())?;
    Ok(put_text(codes, numbers, buf))
}
