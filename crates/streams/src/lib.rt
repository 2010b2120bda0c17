// What a program reads into a lent buffer. No memory is allocated.

#![tactic(auto)]

ghost use Rattle.std.specs.Prelude.{◌<◌, length, take, IfOk};
ghost use Rattle.std.specs.Io.{ReadsAtMost};
ghost use Rattle.std.specs.Io.KnownBytes.{Consumes, IsAtEnd};

use std::io;
use std::io::Read;

// Reads until the buffer is full or the input ends, and says how many bytes stand at the buffer's start: the bytes that came next, and all of
// them where there is room for more. A read that fails is handed on, and so is one that a signal interrupts. The library's `read_exact`
// would call an input that ends early a failure.
pub fn read_full<R: Read>(reader: &mut R, buffer: &mut [u8]) -> io::Result<usize>
    ensures within { ReadsAtMost result buffer.new }
    ensures next { IfOk result (λ n. Consumes (R.remaining reader.old) (R.remaining reader.new) (take n buffer.new)) }
    ensures end { IfOk result (λ n. n < length buffer.new → IsAtEnd (R.remaining reader.new)) }
{
    let mut done = 0;
    while done < buffer.len() {
        let n = reader.read(&mut buffer[done..])?;
        if n == 0 {
            break;
        }
        done += n;
    }
    Ok(done)
}

#[cfg(test)]
mod tests {
    use super::*;
    use std::test::Fail;

    // Gives at most two bytes a read, and fails once so many reads are made.
    #[derive(Drop)]
    struct Dribble<'a> {
        text: &'a [u8],
        reads: u8,
    }

    impl Read for Dribble<'_> {
        fn read(&mut self, buf: &mut [u8]) -> io::Result<usize> {
            if self.reads == 0 {
                return Err(io::Error::other("no more reads"));
            }
            self.reads -= 1;
            let most = buf.len().min(2);
            self.text.read(&mut buf[..most])
        }
    }

    fn make_dribble(text: &[u8], reads: u8) -> Dribble<'_> {
        Dribble { text, reads }
    }

    #[test]
    fn reads_to_the_end(rt: HostRuntime) -> Result<(), Fail> {
        let mut buffer = [0u8; 8];
        assert_eq!(rt; read_full(&mut make_dribble(b"hello", 9), &mut buffer)?, 5);
        assert_eq!(rt; buffer, *b"hello\0\0\0");
        Ok(())
    }

    #[test]
    fn reads_no_more_than_fits(rt: HostRuntime) -> Result<(), Fail> {
        let mut buffer = [0u8; 3];
        let mut reader = make_dribble(b"hello", 9);
        assert_eq!(rt; read_full(&mut reader, &mut buffer)?, 3);
        assert_eq!(rt; buffer, *b"hel");
        assert_eq!(rt; reader.text, b"lo".as_slice());
        Ok(())
    }

    #[test]
    fn hands_on_a_failed_read(rt: HostRuntime) -> Result<(), Fail> {
        let mut buffer = [0u8; 8];
        assert!(rt; read_full(&mut make_dribble(b"hello", 2), &mut buffer).is_err());
        Ok(())
    }
}
