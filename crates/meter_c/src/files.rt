// Trip files, and their calls on an account in the caller's memory.
ghost use Rattle.std.specs.Prelude.{◌≡◌, cond, length, leb};
ghost use Rattle.sections.specs.Find.{find_verdict};
ghost use Rattle.tripfile.specs.Reading.{read_of};
ghost use Rattle.reader.specs.Calls.{decoded};
ghost use Rattle.report.specs.Statement.{report_of};
ghost use Rattle.meter.specs.Answers.{bad_argument, verdict_code};
ghost use Rattle.meter.specs.Files.{report_code, report_laid, read_code, read_laid, find_laid};
ghost use Rattle.meter.specs.Files.{write_code, write_laid, write_buffer};
ghost use Rattle.meter.specs.Files.{step_code, step_laid, run_code, run_numbers, run_laid};

// The nine figures of a trip file's statement, or the number of a bad file.
#[unsafe(no_mangle)]
pub extern "C" fn meter_statement(file: &[u8], answer: &mut [u64]) -> u64
    ensures code { result ≡ cond (leb 9 (length answer.old))
        (report_code (report_of file.now)) bad_argument }
    ensures answered { answer.new ≡ cond (leb 9 (length answer.old))
        (report_laid (report_of file.now) answer.old) answer.old }
{
    meter::files::meter_statement(file, answer)
}

// The plan of a trip file and how many calls it has: 10, 11, 12, 13, 14, 15, then 1, 17, 18, 2.
#[unsafe(no_mangle)]
pub extern "C" fn meter_read(file: &[u8], answer: &mut [u64]) -> u64
    ensures code { result ≡ cond (leb 8 (length answer.old))
        (read_code (read_of file.now)) bad_argument }
    ensures answered { answer.new ≡ cond (leb 8 (length answer.old))
        (read_laid (read_of file.now) answer.old) answer.old }
{
    meter::files::meter_read(file, answer)
}

// Where the section of a kind starts in a trip file, and how many bytes it has: 10, 11, 12, 13.
#[unsafe(no_mangle)]
pub extern "C" fn meter_find(file: &[u8], kind: u32, answer: &mut [u64]) -> u64
    ensures code { result ≡ cond (leb 2 (length answer.old))
        (verdict_code (find_verdict file.now kind)) bad_argument }
    ensures answered { answer.new ≡ cond (leb 2 (length answer.old))
        (find_laid file.now kind answer.old) answer.old }
{
    meter::files::meter_find(file, kind, answer)
}

// Writes the trip file of a plan's seven numbers and of calls into a buffer: 1, 17, 18, 2, 14, 15, 16.
#[unsafe(no_mangle)]
pub extern "C" fn meter_write(
    plan: &[u64],
    codes: &[u32],
    numbers: &[u32],
    buffer: &mut [u8],
    answer: &mut [u64],
) -> u64
    ensures code { result ≡ write_code plan.now codes.now numbers.now
        buffer.old answer.old }
    ensures written { buffer.new ≡ write_buffer plan.now codes.now
        numbers.now buffer.old answer.old }
    ensures answered { answer.new ≡ write_laid plan.now codes.now
        numbers.now buffer.old answer.old }
{
    meter::files::meter_write(plan, codes, numbers, buffer, answer)
}

// The call at a position of a calls section, unchecked, and the position after it; or that there is none.
#[unsafe(no_mangle)]
pub extern "C" fn meter_call(section: &[u8], position: usize, answer: &mut [u64]) -> u64
    ensures code { result ≡ cond (leb 3 (length answer.old))
        (step_code (decoded section.now position)) bad_argument }
    ensures answered { answer.new ≡ cond (leb 3 (length answer.old))
        (step_laid section.now position (decoded section.now position) answer.old)
        answer.old }
{
    meter::files::meter_call(section, position, answer)
}

// All calls of a trip file on an account that has been in use, and how many of them were refused: 0, then the numbers
// of a bad file.
#[unsafe(no_mangle)]
pub extern "C" fn meter_run(account: &mut [u64], file: &[u8], answer: &mut [u64]) -> u64
    ensures code { result ≡ cond (leb 1 (length answer.old))
        (run_code account.old file.now) bad_argument }
    ensures numbers { account.new ≡ cond (leb 1 (length answer.old))
        (run_numbers account.old file.now) account.old }
    ensures answered { answer.new ≡ cond (leb 1 (length answer.old))
        (run_laid account.old file.now answer.old) answer.old }
{
    meter::files::meter_run(account, file, answer)
}
