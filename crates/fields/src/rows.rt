// The table of tags: what each tag's value holds, and how long it is.
ghost use Rattle.std.specs.Prelude.{◌≡◌};
ghost use Rattle.fields.specs.Rows.{is_present, is_tag, length_of, row_of, width_if};

use Slot::{Absent, Data, Pointer, Selector};

// What a one-byte number of a row names: nothing, a pointer variable, a data variable, a selector.
// Stays four, and no Option of three: `rows` (specs/Rows.antt) has them so, and each line of the table reads as the document's.
#[derive(Clone, Copy)]
pub enum Slot {
    Absent,
    Pointer,
    Data,
    Selector,
}

// After the thread: up to three one-byte numbers, a cell where there is one, a number where there is one.
#[derive(Clone, Copy)]
pub struct Row(pub Slot, pub Slot, pub Slot, pub bool, pub bool);

// The two flags stay: with these names a row of `row_of` reads as its line of the document's table does.
const CELL: bool = true;

const NUMBER: bool = true;

const NONE: bool = false;

impl Row {
    // The tags are 1 to 15. Tag 0 is none, and has a place so that the table is indexed by tag.
    pub const TAGS: usize = 16;

    // The value length of each tag, the thread's byte included.
    const LENGTHS: [u8; Row::TAGS] = [1, 8, 2, 3, 4, 4, 3, 3, 6, 3, 3, 3, 3, 4, 4, 4];
}

#[tactic(auto, unfolding(crate::specs::Rows::is_tag))]
pub fn is_tag(tag: u8) -> bool
    ensures { result ≡ is_tag tag }
{
    tag != 0 && usize::from(tag) < Row::TAGS
}

// What the value of each tag holds. A match, for a constant table of structs would be built anew at each call.
#[tactic(auto, unfolding(crate::specs::Rows::row_of))]
pub fn row_of(tag: u8) -> Row
    ensures { result ≡ row_of tag }
{
    match tag {
        1 => Row(Pointer, Absent, Absent, CELL, NUMBER), // p := malloc
        2 => Row(Pointer, Absent, Absent, NONE, NONE), // p := free
        3 => Row(Pointer, Pointer, Absent, NONE, NONE), // p := q
        4 => Row(Pointer, Pointer, Selector, NONE, NONE), // p := q.sel
        5 => Row(Pointer, Selector, Pointer, NONE, NONE), // p.sel := q
        6 => Row(Data, Pointer, Absent, NONE, NONE), // x := p.data
        7 => Row(Pointer, Data, Absent, NONE, NONE), // p.data := x
        8 => Row(Data, Absent, Absent, NONE, NUMBER), // x := constant
        9 => Row(Pointer, Pointer, Absent, NONE, NONE), // assert p = q
        10 => Row(Pointer, Pointer, Absent, NONE, NONE), // assert p ≠ q
        11 => Row(Data, Data, Absent, NONE, NONE), // assert x = y
        12 => Row(Data, Data, Absent, NONE, NONE), // assert x ≠ y
        13 => Row(Data, Data, Data, NONE, NONE), // x := y + z
        14 => Row(Pointer, Pointer, Pointer, NONE, NONE), // cas done: p = q, then p := r
        15 => Row(Pointer, Pointer, Pointer, NONE, NONE), // cas failed: p ≠ q
        _ => Row(Absent, Absent, Absent, NONE, NONE),
    }
}

// How many bytes follow the header of a field with this tag.
#[tactic(auto, unfolding(crate::specs::Rows::length_of, crate::specs::Rows::row_of, crate::specs::Rows::widths_of))]
pub fn value_length(tag: u8) -> u8
    ensures { result ≡ length_of tag }
{
    let at = usize::from(tag);
    if at < Row::TAGS {
        Row::LENGTHS[at]
    } else {
        Row::LENGTHS[0]
    }
}

pub fn is_present(slot: Slot) -> bool
    ensures { result ≡ is_present slot }
{
    !matches!(slot, Absent)
}

pub fn slot_width(slot: Slot) -> usize
    ensures { result ≡ width_if (is_present slot) 1 }
{
    width_if(is_present(slot), 1)
}

pub fn width_if(there: bool, width: usize) -> usize
    ensures { result ≡ width_if there width }
{
    if there { width } else { 0 }
}
