// The text of calls.
ghost use Rattle.std.specs.Prelude.{◌≡◌};
ghost use Rattle.meter.specs.Texts.{text_read_code, text_read_laid, text_read_list};
ghost use Rattle.meter.specs.Texts.{text_write_code, text_write_laid, text_write_buffer};
ghost use Rattle.tripfile.specs.Bodies.{codes_of, numbers_of};
ghost use Rattle.textlines.specs.Text.{calls_of};

// Reads the calls of a text into the lists: 21, 22, 16.
#[unsafe(no_mangle)]
pub extern "C" fn meter_text_read(
    text: &[u8],
    codes: &mut [u32],
    numbers: &mut [u32],
    answer: &mut [u64],
) -> u64
    ensures code { result ≡ text_read_code text.now codes.old numbers.old
        answer.old }
    ensures first { codes.new ≡ text_read_list text.now codes.old
        numbers.old answer.old (codes_of (calls_of text.now)) codes.old }
    ensures second { numbers.new ≡ text_read_list text.now codes.old
        numbers.old answer.old (numbers_of (calls_of text.now))
        numbers.old }
    ensures answered { answer.new ≡ text_read_laid text.now codes.old
        numbers.old answer.old }
{
    meter::texts::meter_text_read(text, codes, numbers, answer)
}

// Writes the calls as text into the buffer: 14, 15, 21, 16.
#[unsafe(no_mangle)]
pub extern "C" fn meter_text_write(
    codes: &[u32],
    numbers: &[u32],
    text: &mut [u8],
    answer: &mut [u64],
) -> u64
    ensures code { result ≡ text_write_code codes.now numbers.now text.old
        answer.old }
    ensures written { text.new ≡ text_write_buffer codes.now numbers.now
        text.old answer.old }
    ensures answered { answer.new ≡ text_write_laid codes.now numbers.now
        text.old answer.old }
{
    meter::texts::meter_text_write(codes, numbers, text, answer)
}
