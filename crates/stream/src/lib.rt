// A buffer, filled from a reader.
#![tactic(auto)]

ghost use Rattle.std.specs.Prelude.{IfOk, IfSome, ◌≡◌, length, take};
ghost use Rattle.std.specs.Counts.{IsPrefixLen};
ghost use Rattle.std.specs.Io.KnownBytes.{Consumes};

use std::io;
use std::io::Read;

// Reads until the buffer is full or the input ends, and gives how many bytes it put at the front of the buffer.
pub fn read_full<R: Read>(reader: &mut R, buffer: &mut [u8]) -> io::Result<usize>
    ensures count { IfOk result (λ n. IsPrefixLen n buffer.new) }
    ensures bytes { IfOk result (λ n. Consumes (R.remaining reader.old) (R.remaining reader.new) (take n buffer.new)) }
    ensures front { IfOk result (λ n. IfSome (R.remaining reader.old) (λ xs. take n buffer.new ≡ take (length buffer.new) xs)) }
{
    let mut n: usize = 0;
    while n < buffer.len() {
        let got = reader.read(&mut buffer[n..])?;
        if got == 0 {
            return Ok(n);
        }
        n += got;
    }
    Ok(n)
}

#[cfg(test)]
mod tests {
    use super::*;
    use std::io::{Error, ErrorKind};
    use std::test::Fail;

    // Gives 2 bytes a call, and at last an error.
    #[derive(Drop)]
    struct Failing(u8);

    impl Read for Failing {
        fn read(&mut self, buf: &mut [u8]) -> io::Result<usize> {
            if self.0 == 0 {
                return Err(Error::from(ErrorKind::BrokenPipe));
            }
            self.0 -= 1;
            let n = buf.len().min(2);
            for b in &mut buf[..n] {
                *b = 7;
            }
            Ok(n)
        }
    }

    #[test]
    fn leaves_what_has_no_room(rt: HostRuntime) -> Result<(), Fail> {
        let mut buffer = [0; 2];
        let mut reader: &[u8] = b"abc";
        let n = read_full(&mut reader, &mut buffer)?;
        assert_eq!(rt; n, 2);
        assert_eq!(rt; &buffer[..], b"ab".as_slice());
        assert_eq!(rt; reader, b"c".as_slice());
        Ok(())
    }

    #[test]
    fn goes_on_after_a_short_read(rt: HostRuntime) -> Result<(), Fail> {
        let mut buffer = [0; 5];
        let n = read_full(&mut Failing(3), &mut buffer)?;
        assert_eq!(rt; n, 5);
        assert_eq!(rt; &buffer[..], [7; 5].as_slice());
        Ok(())
    }

    #[test]
    fn gives_the_readers_error(rt: HostRuntime) -> Result<(), Fail> {
        let mut buffer = [0; 5];
        let read = read_full(&mut Failing(2), &mut buffer);
        let kind = read.map_err(|e| e.kind());
        assert_eq!(rt; kind, Err(ErrorKind::BrokenPipe));
        Ok(())
    }
}
