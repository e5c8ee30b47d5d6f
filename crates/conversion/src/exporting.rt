// The calls of a trip file as text.
ghost use Rattle.std.specs.Prelude.{◌≡◌, ◌≤◌, ◌/◌, length};
ghost use Rattle.text.specs.Text.{placed};
ghost use Rattle.tripfile.specs.Bodies.{calls_in, codes_of, numbers_of};
ghost use Rattle.textlines.specs.Text.{exported_of, buffer_of};
ghost use Rattle.conversion.specs.Conversion.{export_of, export_buffer};

use super::ExportError;
use tariff::Refusal;

// Puts the codes and the numbers of the calls of a calls section at the start of the lists.
fn split_calls(section: &[u8], codes: &mut [u32], numbers: &mut [u32])
    requires { (length section.now / 8 ≤ length codes.old) × (length section.now / 8 ≤ length numbers.old) }
    ensures first { codes.new ≡ placed codes.old 0 (codes_of (calls_in section.now)) }
    ensures second { numbers.new ≡ placed numbers.old 0 (numbers_of (calls_in section.now)) }
{
    for i in 0..section.len() / 8 {
        codes[i] = words::word_at(section, 2 * i);
        numbers[i] = words::word_at(section, 2 * i + 1);
    }
}

// The text of the calls of a calls section into the buffer.
// kept: two arrays, since what is exported are the two lists that the C interface lends.
fn export_section(section: &[u8], buf: &mut [u8]) -> Result<usize, Refusal>
    requires { length section.now / 8 ≤ 8184 }
    ensures answer { result ≡ exported_of (codes_of (calls_in section.now))
        (numbers_of (calls_in section.now)) buf.old }
    ensures buffer { buf.new ≡ buffer_of (codes_of (calls_in section.now))
        (numbers_of (calls_in section.now)) buf.old }
{
    let mut codes = [0u32; 8184];
    let mut numbers = [0u32; 8184];
    let n = section.len() / 8;
    split_calls(section, &mut codes, &mut numbers);
    textlines::export::export(&codes[..n], &numbers[..n], buf)
}

// The text of the calls of a file into the buffer, or what declines it, with every byte as it was: why a file is bad,
// then 21, 16.
pub fn export_file(file: &[u8], buf: &mut [u8]) -> Result<usize, ExportError>
    ensures answer { result ≡ export_of file.now buf.old }
    ensures buffer { buf.new ≡ export_buffer file.now buf.old }
{
    match tripfile::reading::read(file) {
        Ok(_) => export_section(sections::find(file, 2), buf).map_err(|r| ExportError::Text(r)),
        Err(r) => Err(ExportError::File(r)),
    }
}
