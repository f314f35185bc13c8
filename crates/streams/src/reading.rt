// Reading into a buffer, until it is full or the input's end was seen.
ghost use Rattle.io.specs.Counts.{IsPrefixLen};
ghost use Rattle.streams.specs.declared.reading.Stop.TheVariants.{Ended, Full};
ghost use Rattle.std.specs.Io.KnownBytes.{Consumes, IsAtEnd};
ghost use Rattle.streams.specs.Reading.{ReadsBy, is_full, is_read, whole_of};
ghost use Rattle.std.specs.Prelude.{◌≡◌, is_ok, length, take};

use crate::is_interrupted;
use std::io;
use std::io::Read;

// Why reading stopped: the buffer is full, the input has ended, or a read failed.
#[derive(Clone, Copy)]
pub enum Stop {
    Full,
    Ended,
    Broken(io::Error),
}

impl Stop {
    pub fn is_full(self) -> bool
        ensures { result ≡ is_full self }
    {
        matches!(self, Stop::Full)
    }
}

// How many bytes were put at the buffer's start, and why no more. The length stays beside the buffer, which is the caller's.
#[derive(Clone, Copy)]
pub struct Filled {
    pub length: usize,
    pub stop: Stop,
}

impl Filled {
    // How many bytes were read, where all that was asked for was: to an end that was seen, or to the buffer's.
    pub fn whole(self) -> io::Result<usize>
        ensures whole { result ≡ whole_of self }
        ensures is_read { is_ok result ≡ is_read self.stop }
    {
        match self.stop {
            Stop::Full | Stop::Ended => Ok(self.length),
            Stop::Broken(error) => Err(error),
        }
    }
}

// Reads until the buffer is full, or as its stop says. What a reader whose bytes are known has lost is what stands in the buffer.
pub fn read_into<R: Read>(reader: &mut R, bytes: &mut [u8]) -> Filled
    ensures prefix_len { IsPrefixLen result.length bytes.new }
    ensures reads_by { ReadsBy bytes.new result.length result.stop }
    ensures bytes { Consumes (R.remaining reader.old) (R.remaining reader.new) (take result.length bytes.new) }
    ensures end { result.stop ≡ Ended → IsAtEnd (R.remaining reader.new) }
    ensures full { result.stop ≡ Full → result.length ≡ length bytes.new }
{
    let mut length = 0;
    for _ in 0..u64::MAX {
        if length == bytes.len() {
            return Filled {
                length,
                stop: Stop::Full,
            };
        }
        match reader.read(&mut bytes[length..]) {
            Ok(0) => {
                return Filled {
                    length,
                    stop: Stop::Ended,
                };
            }
            Ok(count) => length += count,
            Err(error) if is_interrupted(error) => {}
            Err(error) => {
                return Filled {
                    length,
                    stop: Stop::Broken(error),
                };
            }
        }
    }
    Filled {
        length,
        stop: Stop::Broken(io::Error::other("too many reads")),
    }
}
