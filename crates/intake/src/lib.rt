// The start of an input, read into a lent buffer.
#![tactic(auto)]

ghost use Rattle.std.specs.Prelude.{◌<◌, ◌≤◌, length, take, IfOk};
ghost use Rattle.std.specs.Io.KnownBytes.{Consumes, IsAtEnd};

use std::io;
use std::io::Read;

// Reads until the buffer is full or the input ends, and answers how many bytes it put at the buffer's start. They are
// the input's first bytes and, where there is room left, all of them.
pub fn read_start<R: Read>(input: &mut R, buf: &mut [u8]) -> io::Result<usize>
    ensures room { IfOk result (λ n. n ≤ length buf.new) }
    ensures first { IfOk result (λ n. Consumes (R.remaining input.old) (R.remaining input.new) (take n buf.new)) }
    ensures all { IfOk result (λ n. n < length buf.new → IsAtEnd (R.remaining input.new)) }
{
    let mut at = 0;
    // kept: no call of std fills a lent buffer and takes a shorter input, too; read_to_end needs a heap
    while at < buf.len() {
        let n = input.read(&mut buf[at..])?;
        if n == 0 {
            break;
        }
        at += n;
    }
    Ok(at)
}

#[cfg(test)]
mod tests {
    use super::*;
    use std::io::ErrorKind;
    use std::test::Fail;

    // Hands out sevens, one a read, and then fails.
    #[derive(Drop)]
    struct Failing {
        sevens: u8,
    }

    impl Read for Failing {
        fn read(&mut self, buf: &mut [u8]) -> io::Result<usize> {
            if self.sevens == 0 || buf.is_empty() {
                return Err(io::Error::from(ErrorKind::Other));
            }
            self.sevens -= 1;
            buf[0] = 7;
            Ok(1)
        }
    }

    #[test]
    fn whole_input(rt: HostRuntime) -> Result<(), Fail> {
        let mut input = b"topup,1\n".as_slice();
        let mut buf = [0u8; 10];
        assert_eq!(rt; read_start(&mut input, &mut buf)?, 8);
        assert_eq!(rt; buf.as_slice(), b"topup,1\n\0\0".as_slice());
        Ok(())
    }

    #[test]
    fn longer_input(rt: HostRuntime) -> Result<(), Fail> {
        let mut input = b"topup,1\n".as_slice();
        let mut buf = [0u8; 5];
        assert_eq!(rt; read_start(&mut input, &mut buf)?, 5);
        assert_eq!(rt; buf.as_slice(), b"topup".as_slice());
        assert_eq!(rt; input, b",1\n".as_slice());
        Ok(())
    }

    #[test]
    fn several_reads(rt: HostRuntime) -> Result<(), Fail> {
        let mut buf = [0u8; 3];
        assert_eq!(rt; read_start(&mut Failing { sevens: 3 }, &mut buf)?, 3);
        assert_eq!(rt; buf.as_slice(), [7, 7, 7].as_slice());
        Ok(())
    }

    #[test]
    fn failed_read(rt: HostRuntime) -> Result<(), Fail> {
        let mut buf = [0u8; 3];
        let read = read_start(&mut Failing { sevens: 2 }, &mut buf);
        assert_eq!(rt; read.err().ok_or("read")?.kind(), ErrorKind::Other);
        Ok(())
    }
}
