// The frame of the field at the front of a part: its tag, once all its bytes are known to be there, and the part that is its value.
ghost use Rattle.std.specs.Prelude.{◌≡◌};
ghost use Rattle.fields.specs.Read.{bytes_in, frame_in};

use super::numbers::bytes_at;
use super::rows::{is_tag, value_length};
use super::{Field, Refusal};

// The value is judged as the part of the log that starts after the three header bytes: no byte is copied.
pub fn frame_of(part: &[u8]) -> Result<(u8, &[u8]), Refusal>
    ensures { bytes_in result ≡ frame_in part.now }
{
    if part.len() < Field::HEADER {
        return Err(Refusal::CutShort);
    }
    let tag = part[0];
    if !is_tag(tag) {
        return Err(Refusal::UnknownTag);
    }
    let length = value_length(tag);
    if u16::from_le_bytes(bytes_at(part, 1, true)) != u16::from(length) {
        return Err(Refusal::WrongLength);
    }
    let value = &part[Field::HEADER..];
    if value.len() < usize::from(length) {
        return Err(Refusal::CutShort);
    }
    Ok((tag, value))
}
