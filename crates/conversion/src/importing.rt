// The trip file of a plan and a text.
ghost use Rattle.std.specs.Prelude.{◌≡◌};
ghost use Rattle.conversion.specs.Conversion.{import_of, import_buffer};

use super::ImportError;
use tariff::Plan;

// The trip file of a plan and of a text's calls into the buffer, or what declines it, with every byte as it was: 21,
// 22, then 1, 17, 18, 2, 16.
pub fn import_text(plan: Plan, text: &[u8], buf: &mut [u8]) -> Result<usize, ImportError>
    ensures answer { result ≡ import_of plan text.now buf.old }
    ensures buffer { buf.new ≡ import_buffer plan text.now buf.old }
{
    // kept: two arrays, since a text is read into the two lists that the C interface lends
    let mut codes = [0u32; 8184];
    let mut numbers = [0u32; 8184];
    let n = textlines::reading::read(text, &mut codes, &mut numbers)?;
    tripfile::writing::write(plan, &codes[..n], &numbers[..n], buf).map_err(
        |r| ImportError::Writing(r),
    )
}
