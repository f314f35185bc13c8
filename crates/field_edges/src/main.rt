// Reads and writes single fields that stand at the edges of document 01's checks, and prints what comes back.
// Records on standard input: a size byte, then 0 and a part to read, or 1, a field's numbers and the room to write it in.
#![tactic(auto)]

use fields::{Field, RecordedCell};
use std::io::{Result, Write};
use streams::{Line, read_into};

// What an output holds before a field is written, so that a byte that was written is seen.
const BEFORE: u8 = 0xee;

const ROOM: usize = 24;

// The place of every part that is read: the last of the longest log.
const PLACE: u32 = 45_055;

// Room for all records.
const RECORDS: usize = 65_536;

fn show_read<W: Write>(out: &mut W, part: &[u8]) -> Result<()> {
    match fields::read_field(part, PLACE) {
        Ok((field, offset)) => {
            let Field {
                tag,
                thread,
                first,
                second,
                third,
                cell,
                number,
            } = field;
            let RecordedCell(cell) = cell;
            writeln!(
                out,
                "got {tag} {thread} {first} {second} {third} {cell} {number} {offset}"
            )
        }
        Err((why, offset)) => {
            let number = why.number();
            writeln!(out, "refused {number} {offset}")
        }
    }
}

fn show_write<W: Write>(out: &mut W, field: Field, room: usize) -> Result<()> {
    let mut written = [BEFORE; ROOM];
    let Some(lent) = written.get_mut(..room) else {
        return Ok(());
    };
    match fields::write_field(field, lent) {
        Ok(count) => write!(out, "bytes {count} ")?,
        Err(why) => {
            let number = why.number();
            write!(out, "refused {number} ")?;
        }
    }
    for byte in written {
        write!(out, "{byte:02x}")?;
    }
    writeln!(out)
}

fn show<W: Write>(out: &mut W, record: &[u8]) -> Result<()> {
    match *record {
        [0, ref part @ ..] => show_read(out, part),
        [
            _,
            tag,
            thread,
            first,
            second,
            third,
            c0,
            c1,
            n0,
            n1,
            n2,
            n3,
            room,
        ] => {
            let field = Field {
                tag,
                thread,
                first,
                second,
                third,
                cell: RecordedCell(u16::from_le_bytes([c0, c1])),
                number: u32::from_le_bytes([n0, n1, n2, n3]),
            };
            show_write(out, field, usize::from(room))
        }
        _ => Ok(()),
    }
}

// A record that is cut short ends the input.
fn show_all<W: Write>(out: &mut W, input: &[u8]) -> Result<()> {
    let mut rest = input;
    while let Some((size, after)) = rest.split_first() {
        let Some((record, next)) = after.split_at_checked(usize::from(*size)) else {
            return Ok(());
        };
        show(out, record)?;
        rest = next;
    }
    Ok(())
}

fn main(rt: HostRuntime) -> Result<()> {
    let mut input = [0u8; RECORDS];
    let count = read_into(&mut rt.stdin(), &mut input).whole()?;
    let mut out = Line::new(rt.stdout());
    show_all(&mut out, &input[..count])?;
    out.flush()
}
