// Writes the calls of the trip file on standard input as text (lines-11), or on standard error `file` or `text` and the
// number that declines it. It only reads, calls and writes; the text is proved in `conversion`. `./export` adds the
// words of a number.
#![tactic(auto)]

use conversion::ExportError;
use std::io;

fn main(rt: HostRuntime) -> io::Result<()> {
    // Four bytes more than the largest file, so that a longer input is told from it.
    let mut file = [0u8; 65540];
    let n = intake::read_start(&mut rt.stdin(), &mut file)?;
    // Room for every text, so that 16 is never told.
    let mut text = [0u8; 65536];
    match conversion::exporting::export_file(&file[..n], &mut text) {
        Ok(k) => {
            if rt.write_all(&text[..k]).is_err() {
                eprintln!(rt; "export: cannot write the text")?;
            }
            Ok(())
        }
        Err(ExportError::File(refusal)) => eprintln!(rt; "file {refusal}"),
        Err(ExportError::Text(refusal)) => eprintln!(rt; "text {refusal}"),
    }
}
