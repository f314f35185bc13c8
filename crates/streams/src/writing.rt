// Writing all bytes of a slice.
ghost use Rattle.std.specs.Io.KnownBytes.{Appends};
ghost use Rattle.std.specs.Prelude.{◌≡◌, ◌≤◌, is_ok, length, OnOk, take};
ghost use Rattle.streams.specs.Writing.{WritesBy};

use crate::is_interrupted;
use std::io;
use std::io::{ErrorKind, Write};

// How many bytes from the front on were written, and whether these are all; where not, the error says why. The number stays beside the
// Result: where a write fails, `Line` drops what was written and keeps the rest.
pub fn write_front<W: Write>(writer: &mut W, bytes: &[u8]) -> (usize, io::Result<()>)
    ensures front { result.0 ≤ length bytes.now }
    ensures whole { OnOk result.1 (result.0 ≡ length bytes.now) }
    ensures writes_by { WritesBy (length bytes.now) (is_ok result.1) }
    ensures bytes { Appends (W.contents writer.old) (W.contents writer.new) (take result.0 bytes.now) }
{
    let mut done = 0;
    for _ in 0..u64::MAX {
        if done == bytes.len() {
            return (done, Ok(()));
        }
        match writer.write(&bytes[done..]) {
            Ok(0) => return (done, Err(io::Error::from(ErrorKind::WriteZero))),
            Ok(count) => done += count,
            Err(error) if is_interrupted(error) => {}
            Err(error) => return (done, Err(error)),
        }
    }
    (done, Err(io::Error::other("too many writes")))
}

// Whether all of it was written. Where not, some of it may have been, and the error says why.
pub fn write_whole<W: Write>(writer: &mut W, bytes: &[u8]) -> io::Result<()>
    ensures writes_by { WritesBy (length bytes.now) (is_ok result) }
    ensures bytes { OnOk result (Appends (W.contents writer.old) (W.contents writer.new) bytes.now) }
{
    let (_, written) = write_front(writer, bytes);
    written
}
