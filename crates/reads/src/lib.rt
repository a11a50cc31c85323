// What a read gave.
#![tactic(auto)]

ghost use Rattle.std.specs.Prelude.{◌≡◌, length};
ghost use Rattle.std.specs.Io.KnownBytes.{ReadConsumes};
ghost use Rattle.reads.specs.Given.{given, got_said, Within};

use std::io::Read;

// Room for a block of the input.
pub const BLOCK: usize = 65_536;

// A read that failed. It is never taken for the input's end.
#[derive(Debug, Clone, Copy, PartialEq, Eq)]
pub struct ReadFailed;

// What the number says that a read into the row answered: so many bytes, 0 where the input has ended. A negative one says that it failed. Both
// programs judge by it what they read.
pub fn given(answered: isize, row: &[u8]) -> Result<usize, ReadFailed>
    ensures value { got_said result ≡ given answered (length row.now) }
    ensures within { Within result (length row.now) }
{
    match usize::try_from(answered) {
        Ok(n) => Ok(n.min(row.len())),
        Err(_) => Err(ReadFailed),
    }
}

// Reads into the row, once: what is read are the input's next bytes, and none only where it has ended. How many come, and whether a read fails, is the
// input's, and no contract can say it: `read_once_unique` says what is known by what is told.
pub fn read_once<R: Read>(input: &mut R, row: &mut [u8]) -> Result<usize, ReadFailed>
    ensures within { Within result (length row.old) }
    ensures consumes { ReadConsumes (R.remaining input.old) (R.remaining input.new) result row.new }
{
    input.read(row).map_err(|_| ReadFailed)
}

#[cfg(test)]
mod tests {
    use super::*;
    use std::io;

    // Gives its bytes, and then fails, where others have ended.
    #[derive(Drop)]
    struct Broken {
        left: &'static [u8],
    }

    impl Read for Broken {
        fn read(&mut self, buf: &mut [u8]) -> io::Result<usize> {
            if self.left.is_empty() {
                return Err(io::ErrorKind::Other.into());
            }
            self.left.read(buf)
        }
    }

    // Bytes are told as they come, and then the end, each time. Where there is no room nothing is taken.
    #[test]
    fn reads_to_the_end(rt: HostRuntime) {
        let mut input: &[u8] = b"day 34\n";
        let mut row = [b'.'; 4];
        assert_eq!(rt; read_once(&mut input, &mut row[..0]), Ok(0));
        assert_eq!(rt; read_once(&mut input, &mut row), Ok(4));
        assert_eq!(rt; row, *b"day ");
        assert_eq!(rt; read_once(&mut input, &mut row), Ok(3));
        assert_eq!(rt; &row[..3], b"34\n".as_slice());
        assert_eq!(rt; read_once(&mut input, &mut row), Ok(0));
        assert_eq!(rt; read_once(&mut input, &mut row), Ok(0));
    }

    // A read that fails is told as one, and not as the end.
    #[test]
    fn tells_a_failure(rt: HostRuntime) {
        let mut input = Broken { left: b"day " };
        let mut row = [b'.'; 4];
        assert_eq!(rt; read_once(&mut input, &mut row), Ok(4));
        assert_eq!(rt; row, *b"day ");
        assert_eq!(rt; read_once(&mut input, &mut row), Err(ReadFailed));
        assert_eq!(rt; row, *b"day ");
    }
}
