// Reading one field at the front of a part of a log.
ghost use Rattle.std.specs.Prelude.{◌≡◌, ◌≤◌, length};
ghost use Rattle.fields.specs.Bytes.{total, unpack};
ghost use Rattle.fields.specs.Numbers.{field_with};
ghost use Rattle.fields.specs.Read.{placed, read_field};
ghost use Rattle.fields.specs.Rows.{widths_of};

use super::checks::check_value;
use super::frame::frame_of;
use super::numbers::bytes_at;
use super::rows::{Row, is_present, row_of, slot_width, width_if};
use super::{Field, RecordedCell, Refusal};

// The field of a tag with this row, in a value that is long enough for it.
#[tactic(auto, unfolding(crate::specs::Rows::widths_of))]
fn field_of(tag: u8, row: Row, value: &[u8]) -> Field
    requires { total (widths_of row) ≤ length value.now }
    ensures { result ≡ field_with tag (unpack (widths_of row) value.now) }
{
    let Row(first, second, third, cell, number) = row;
    let second_at = 1 + slot_width(first);
    let third_at = second_at + slot_width(second);
    let cell_at = third_at + slot_width(third);
    let number_at = cell_at + width_if(cell, 2);
    Field {
        tag,
        thread: value[0],
        first: u8::from_le_bytes(bytes_at(value, 1, is_present(first))),
        second: u8::from_le_bytes(bytes_at(value, second_at, is_present(second))),
        third: u8::from_le_bytes(bytes_at(value, third_at, is_present(third))),
        cell: RecordedCell(u16::from_le_bytes(bytes_at(value, cell_at, cell))),
        number: u32::from_le_bytes(bytes_at(value, number_at, number)),
    }
}

// The field at the front of a part, wherever the part stands in its log.
#[tactic(auto, using(crate::proofs::Framing::whole_value), unfolding(crate::specs::Rows::length_of))]
fn field_at_front(part: &[u8]) -> Result<Field, Refusal>
    ensures { result ≡ read_field part.now }
{
    let (tag, value) = frame_of(part)?;
    let row = row_of(tag);
    let field = field_of(tag, row, value);
    check_value(row, field)?;
    Ok(field)
}

// One field at the front of a part that stands at this place of a log, or why it cannot be read. Nothing is changed.
pub fn read_field(part: &[u8], place: u32) -> Result<(Field, u32), (Refusal, u32)>
    ensures { result ≡ placed place (read_field part.now) }
{
    match field_at_front(part) {
        Ok(field) => Ok((field, place)),
        Err(why) => Err((why, place)),
    }
}
