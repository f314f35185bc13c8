// Writing one field at the front of an output.

ghost use Rattle.std.specs.Prelude.{◌∷◌, ◌++◌, ◌≡◌, ◌+◌, ◌≤◌, [], cond, drop, length, take};
ghost use Rattle.fields.specs.Bytes.{pack, total};
ghost use Rattle.fields.specs.Numbers.{numbers_of};
ghost use Rattle.fields.specs.Rows.{width_if, widths_of};
ghost use Rattle.fields.specs.Write.{write_field, writing};

use super::checks::check_value;
use super::rows::{Row, is_present, is_tag, row_of, value_length};
use super::{Field, Refusal};

// A number's bytes at a place, where its row has the number; and the place after them.
fn put<const N: usize>(out: &mut [u8], at: usize, there: bool, bytes: [u8; N]) -> usize
    requires { at + width_if there N ≤ length out.old }
    ensures place { result ≡ at + width_if there N }
    ensures stored { out.new ≡ take at out.old ++ cond there bytes.entry [] ++ drop result out.old }
{
    if !there {
        return at;
    }
    out[at..at + N].copy_from_slice(&bytes);
    at + N
}

// A field's bytes, by its row, at the front of an output that has room for them.
#[tactic(auto, unfolding(crate::specs::Rows::widths_of))]
fn put_field(row: Row, field: Field, bytes: u8, out: &mut [u8])
    requires { 3 + total (widths_of row) ≤ length out.old }
    ensures { out.new ≡ pack (1 ∷ 2 ∷ widths_of row) (field.tag ∷ bytes ∷ numbers_of field) ++ drop (total (1 ∷ 2 ∷ widths_of row)) out.old }
{
    let Row(first, second, third, cell, number) = row;
    let length_at = put(out, 0, true, field.tag.to_le_bytes());
    let thread_at = put(out, length_at, true, u16::from(bytes).to_le_bytes());
    let first_at = put(out, thread_at, true, field.thread.to_le_bytes());
    let second_at = put(out, first_at, is_present(first), field.first.to_le_bytes());
    let third_at = put(
        out,
        second_at,
        is_present(second),
        field.second.to_le_bytes(),
    );
    let cell_at = put(out, third_at, is_present(third), field.third.to_le_bytes());
    let number_at = put(out, cell_at, cell, field.cell.0.to_le_bytes());
    put(out, number_at, number, field.number.to_le_bytes());
}

// The field's header and value at the front of the output, whose rest keeps its bytes. A refusal leaves it untouched.
#[tactic(auto, using(crate::proofs::Writing::write_unknown), unfolding(crate::specs::Rows::length_of))]
pub fn write_field(field: Field, out: &mut [u8]) -> Result<usize, Refusal>
    ensures { writing result out.new ≡ write_field field out.old }
{
    if !is_tag(field.tag) {
        return Err(Refusal::UnknownTag);
    }
    let row = row_of(field.tag);
    check_value(row, field)?;
    let bytes = value_length(field.tag);
    let room = Field::HEADER + usize::from(bytes);
    if out.len() < room {
        return Err(Refusal::OutputTooShort);
    }
    put_field(row, field, bytes, out);
    Ok(room)
}
