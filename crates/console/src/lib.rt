// Standard input and output as the programs use them. A read that fails counts as the end of the input, and what cannot be written is
// lost: so a program's answer is that of the bytes that came, what it writes is a beginning of its answer, and it ends with status 0. The loops stay, since the
// library's `read_exact` and `write_all` do not say how many bytes came or were taken where they fail.
#![tactic(auto)]

ghost use Rattle.std.specs.Prelude.{◌≤◌, length, take};
ghost use Rattle.std.specs.Io.KnownBytes.{Appends, Consumes};

use std::io::{Read, Write};

// Reads once: how many bytes came, at the start of the buffer. None is the end. Ruled out: a count of bytes that did not come; a byte that
// is read and not counted.
pub fn read_some<R: Read>(input: &mut R, buf: &mut [u8]) -> usize
    ensures within { result ≤ length buf.new }
    ensures bytes { Consumes (R.remaining input.old) (R.remaining input.new) (take result buf.new) }
{
    input.read(buf).unwrap_or(0)
}

// Reads until the buffer is full or the input ends: how many bytes came. Ruled out: the pieces in another order; a piece put over the one
// before it.
pub fn read_full<R: Read>(input: &mut R, buf: &mut [u8]) -> usize
    ensures within { result ≤ length buf.new }
    ensures bytes { Consumes (R.remaining input.old) (R.remaining input.new) (take result buf.new) }
{
    let mut done = 0;
    while done < buf.len() {
        let n = read_some(input, &mut buf[done..]);
        if n == 0 {
            break;
        }
        done += n;
    }
    done
}

// Writes once: how many bytes were taken. Ruled out: a count of bytes that were not taken; a byte that is written and not counted.
fn write_some<W: Write>(output: &mut W, bytes: &[u8]) -> usize
    ensures within { result ≤ length bytes.now }
    ensures taken { Appends (W.contents output.old) (W.contents output.new) (take result bytes.now) }
{
    output.write(bytes).unwrap_or(0)
}

// Writes until all bytes are taken, or none is: how many were. Ruled out: a piece written again; a piece left out before one that is written.
pub fn write_all<W: Write>(output: &mut W, bytes: &[u8]) -> usize
    ensures within { result ≤ length bytes.now }
    ensures taken { Appends (W.contents output.old) (W.contents output.new) (take result bytes.now) }
{
    let mut done = 0;
    while done < bytes.len() {
        let n = write_some(output, &bytes[done..]);
        if n == 0 {
            break;
        }
        done += n;
    }
    done
}

#[cfg(test)]
mod tests {
    use super::*;
    use std::io;
    use std::io::ErrorKind;
    use std::test::Fail;

    // Gives a few bytes at a time. When they are out, one read gives none or fails, and the next would give more.
    #[derive(Drop)]
    struct Pieces<'a> {
        rest: &'a [u8],
        after: &'a [u8],
        piece: usize,
        fails: bool,
    }

    impl Read for Pieces<'_> {
        fn read(&mut self, buf: &mut [u8]) -> io::Result<usize> {
            let most = buf.len().min(self.piece);
            let n = self.rest.read(&mut buf[..most])?;
            if n > 0 {
                return Ok(n);
            }
            self.rest = self.after;
            if self.fails {
                return Err(io::Error::from(ErrorKind::Other));
            }
            Ok(0)
        }
    }

    // Takes a few bytes at a time, so many in all. Then one write takes none or fails, and the next would take more.
    #[derive(Drop)]
    struct Room {
        held: Vec<u8>,
        left: usize,
        piece: usize,
        fails: bool,
    }

    impl Write for Room {
        fn write(&mut self, bytes: &[u8]) -> io::Result<usize> {
            let most = bytes.len().min(self.piece).min(self.left);
            if most == 0 {
                self.left = 100;
                if self.fails {
                    return Err(io::Error::from(ErrorKind::Other));
                }
                return Ok(0);
            }
            self.left -= most;
            self.held.write(&bytes[..most])
        }

        fn flush(&mut self) -> io::Result<()> {
            Ok(())
        }
    }

    // What came stands at the front, whatever the pieces, up to the end of the input, a read that fails or the end of the buffer.
    #[test]
    fn reads_until_the_end(rt: HostRuntime) {
        for (piece, fails, given, want) in [
            (1, false, 5, 5),
            (2, true, 5, 5),
            (3, false, 8, 8),
            (3, true, 9, 8),
            (100, true, 0, 0),
            (100, false, 10, 8),
        ] {
            let bytes = b"0123456789";
            let mut input = Pieces {
                rest: &bytes[..given],
                after: b"later",
                piece,
                fails,
            };
            let mut buf = [b'.'; 8];
            let n = read_full(&mut input, &mut buf);
            assert_eq!(rt; n, want, "{piece} at a time");
            assert_eq!(rt; &buf[..n], &bytes[..n], "{piece} at a time");
        }
    }

    // What is taken is a beginning of what was to be written, up to a write that takes none or fails.
    #[test]
    fn writes_a_beginning(rt: HostRuntime) -> Result<(), Fail> {
        for (piece, fails, left, want) in [
            (1, false, 5, 5),
            (3, true, 5, 5),
            (3, false, 10, 10),
            (3, true, 20, 10),
            (100, true, 0, 0),
        ] {
            let bytes = b"0123456789";
            let mut output = Room {
                held: Vec::new(rt.alloc()),
                left,
                piece,
                fails,
            };
            let n = write_all(&mut output, bytes);
            assert_eq!(rt; n, want, "{piece} at a time");
            assert_eq!(rt; output.held.as_slice(), &bytes[..n], "{piece} at a time");
        }
        Ok(())
    }
}
