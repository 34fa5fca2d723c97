// Reading an input into a buffer that the caller lends.
#![tactic(auto)]

ghost use Rattle.std.specs.Prelude.{◌≡◌, ◌<◌, ◌≤◌, length, take, false};
ghost use Rattle.std.specs.Io.KnownBytes.{Consumes, IsAtEnd};

use std::io::Read;

// How many bytes at the start of the buffer were read, and whether a read failed behind them.
// Not a Result: it would have the size in both of its cases, and the programs take the size of either.
#[derive(Clone, Copy)]
pub struct Filled {
    pub size: usize,
    pub failed: bool,
}

// Reads until the buffer is full, the input ends or a read fails.
// The input has lost the bytes that stand in the buffer, and no more; where there was room left and no read failed, it has come to its end.
pub fn fill<R: Read>(input: &mut R, buffer: &mut [u8]) -> Filled
    ensures inside { result.size ≤ length buffer.new }
    ensures bytes { Consumes (R.remaining input.old) (R.remaining input.new) (take result.size buffer.new) }
    ensures end { result.failed ≡ false → result.size < length buffer.new → IsAtEnd (R.remaining input.new) }
{
    let mut size = 0;
    while size < buffer.len() {
        match input.read(&mut buffer[size..]) {
            Ok(0) => break,
            Ok(n) => size += n,
            Err(_) => return Filled { size, failed: true },
        }
    }
    Filled {
        size,
        failed: false,
    }
}

#[cfg(test)]
mod tests {
    use super::*;
    use std::io::{Error, ErrorKind, Result};

    // Gives a byte at each read, and fails at one of them.
    #[derive(Drop)]
    struct Drips {
        given: u8,
        fails_at: u8,
    }

    impl Read for Drips {
        fn read(&mut self, buf: &mut [u8]) -> Result<usize> {
            if self.given == self.fails_at || buf.is_empty() {
                return Err(Error::from(ErrorKind::Other));
            }
            self.given = self.given.wrapping_add(1);
            buf[0] = self.given;
            Ok(1)
        }
    }

    #[test]
    fn fills_from_many_reads(rt: HostRuntime) {
        let mut buffer = [0u8; 4];
        let mut drips = Drips {
            given: 0,
            fails_at: 9,
        };
        let filled = fill(&mut drips, &mut buffer);
        assert!(rt; filled.size == 4 && !filled.failed);
        assert_eq!(rt; buffer, [1, 2, 3, 4]);
    }

    #[test]
    fn keeps_what_came_before_a_failed_read(rt: HostRuntime) {
        let mut buffer = [0u8; 4];
        let mut drips = Drips {
            given: 0,
            fails_at: 2,
        };
        let filled = fill(&mut drips, &mut buffer);
        assert!(rt; filled.size == 2 && filled.failed);
        assert_eq!(rt; buffer, [1, 2, 0, 0]);
    }

    #[test]
    fn ends_with_the_input(rt: HostRuntime) {
        let mut buffer = [0u8; 4];
        let mut input: &[u8] = b"abc";
        let filled = fill(&mut input, &mut buffer);
        assert!(rt; filled.size == 3 && !filled.failed);
        assert_eq!(rt; buffer, [97, 98, 99, 0]);
    }
}
