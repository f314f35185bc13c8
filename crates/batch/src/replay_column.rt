// The column of the replay, in hexadecimal.
use super::lent::Left;
use std::io::{Result, Write};

const DIGITS: &[u8; 16] = b"0123456789abcdef";

// How many bytes are handed to the writer at a time: a call, or a format, for each takes longer than judging the log.
const PART: usize = 64;

// A byte as two digits.
fn digits_of(byte: u8) -> [u8; 2] {
    let high = DIGITS[usize::from(byte >> 4)];
    let low = DIGITS[usize::from(byte & 0xf)];
    [high, low]
}

// The replay is the output's front, as long as its log.
pub fn write_replay<W: Write>(line: &mut W, left: &Left, front: &[u8]) -> Result<()> {
    if !left.is_accepted() {
        return write!(line, "-");
    }
    if front.is_empty() {
        return write!(line, "empty");
    }
    let (parts, rest) = front.as_chunks::<PART>();
    for part in parts {
        line.write_all(part.map(digits_of).as_flattened())?;
    }
    for byte in rest {
        line.write_all(&digits_of(*byte))?;
    }
    Ok(())
}
