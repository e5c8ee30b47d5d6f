// Prints the statement of the trip file on standard input (statement-1). It only reads, calls and writes; the text is
// proved in `printout`.
#![tactic(auto)]

use std::io;

fn main(rt: HostRuntime) -> io::Result<()> {
    // Four bytes more than the largest file, so that a longer input is told from it.
    let mut file = [0u8; 65540];
    let n = intake::read_start(&mut rt.stdin(), &mut file)?;
    let mut text = [0u8; 242];
    let k = printout::put_statement(&file[..n], &mut text);
    if rt.write_all(&text[..k]).is_err() {
        eprintln!(rt; "statement: cannot write the text")?;
    }
    Ok(())
}
