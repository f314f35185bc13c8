// The calls that read and write one field.
ghost use Rattle.std.specs.Prelude.{◌≡◌, ◌≤◌, length};
ghost use Rattle.capi.specs.Fields.{field_in, read_call, read_left, write_call, write_left};
ghost use Rattle.capi.specs.Fronts.{at_most, largest_byte, largest_pair};

use super::fronts::put_front;
use fields::{Field, RecordedCell, Refusal, read_field, write_field};

// Tag, thread, first, second, third, cell, number.
// Stays a list of numbers: C lends it so.
const FIELD: usize = 7;

// These, and the byte offset of what was read.
const READ: usize = FIELD + 1;

// What a call about one field returns: 0 where it did what it was called for, else a refusal's number.
// Stay numbers: C gets them, by the names in include/thawhazel.h.
pub const DONE: u32 = 0;

pub const TOO_SHORT: u32 = Refusal::OutputTooShort as u32;

// A number that is too large for its type counts as the largest of the type. Stay two: one call of std for each of two types.
fn byte_of(n: u32) -> u8
    ensures { result ≡ at_most largest_byte n }
{
    u8::try_from(n).unwrap_or(u8::MAX)
}

fn cell_of(n: u32) -> RecordedCell
    ensures { result.0 ≡ at_most largest_pair n }
{
    RecordedCell(u16::try_from(n).unwrap_or(u16::MAX))
}

fn field_in(field: &[u32]) -> Field
    requires { 7 ≤ length field.now }
    ensures { result ≡ field_in field.now }
{
    Field {
        tag: byte_of(field[0]),
        thread: byte_of(field[1]),
        first: byte_of(field[2]),
        second: byte_of(field[3]),
        third: byte_of(field[4]),
        cell: cell_of(field[5]),
        number: field[6],
    }
}

#[tactic(auto, using(crate::proofs::OneField::read_short))]
#[unsafe(no_mangle)]
pub extern "C" fn thawhazel_read_field(part: &[u8], place: u32, field: &mut [u32]) -> u32
    ensures { read_left result field.new ≡ read_call part.now place field.old }
{
    if field.len() < READ {
        return TOO_SHORT;
    }
    match read_field(part, place) {
        Ok((f, offset)) => {
            let list = [
                u32::from(f.tag),
                u32::from(f.thread),
                u32::from(f.first),
                u32::from(f.second),
                u32::from(f.third),
                u32::from(f.cell.0),
                f.number,
                offset,
            ];
            put_front(field, &list);
            DONE
        }
        Err((why, offset)) => {
            field[FIELD] = offset;
            u32::from(why.number())
        }
    }
}

#[tactic(auto, using(crate::proofs::OneField::write_no_field, crate::proofs::OneField::write_no_answer))]
#[unsafe(no_mangle)]
pub extern "C" fn thawhazel_write_field(field: &[u32], out: &mut [u8], answer: &mut [u32]) -> u32
    ensures { write_left result out.new answer.new ≡ write_call field.now out.old answer.old }
{
    if field.len() < FIELD || answer.is_empty() {
        return TOO_SHORT;
    }
    match write_field(field_in(field), out) {
        Ok(n) => {
            put_front(answer, &[n as u32]);
            DONE
        }
        Err(why) => u32::from(why.number()),
    }
}
