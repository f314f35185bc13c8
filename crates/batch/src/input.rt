// The records on standard input: a log's length, 4 bytes with the low byte first, and the log.
ghost use Rattle.std.specs.Prelude.{◌≤◌, ◌≡◌, ℕ};
ghost use Rattle.batch.specs.declared.input.Next.TheVariants.{Whole};

use fields::Log;
use std::io::{Read, Result};
use streams::{Stop, read_into};

// How many bytes at a time are dropped.
const CHUNK: usize = 4_096;

// What standard input has next: a whole record, with so many of the log's bytes in the buffer; one that is cut short; nothing.
#[derive(Clone, Copy)]
pub enum Next {
    Whole(usize),
    Cut,
    End,
}

// Whether there was as much as the bytes have room for.
fn fill<R: Read>(input: &mut R, bytes: &mut [u8]) -> Result<bool> {
    let filled = read_into(input, bytes);
    filled.whole()?;
    Ok(filled.stop.is_full())
}

// Reads so many bytes and drops them. Whether there were as many.
fn skip<R: Read>(input: &mut R, count: usize) -> Result<bool> {
    let mut chunk = [0u8; CHUNK];
    for start in (0..count).step_by(CHUNK) {
        let part = (count - start).min(CHUNK);
        if !fill(input, &mut chunk[..part])? {
            return Ok(false);
        }
    }
    Ok(true)
}

// A log of so many bytes. Of one that is too long the first byte too many is kept, and the rest is dropped.
fn read_log<R: Read>(input: &mut R, bytes: &mut [u8; Log::ROOM], size: usize) -> Result<Next>
    ensures { (n : ℕ) → result ≡ Ok (Whole n) → n ≤ 45057 }
{
    let length = size.min(Log::ROOM);
    if fill(input, &mut bytes[..length])? && skip(input, size - length)? {
        Ok(Next::Whole(length))
    } else {
        Ok(Next::Cut)
    }
}

pub fn read_record<R: Read>(input: &mut R, bytes: &mut [u8; Log::ROOM]) -> Result<Next>
    ensures { (n : ℕ) → result ≡ Ok (Whole n) → n ≤ 45057 }
{
    let mut size = [0u8; 4];
    let head = read_into(input, &mut size);
    match head.stop {
        Stop::Full => read_log(input, bytes, u32::from_le_bytes(size) as usize),
        Stop::Ended if head.length == 0 => Ok(Next::End),
        Stop::Ended => Ok(Next::Cut),
        Stop::Broken(why) => Err(why),
    }
}
