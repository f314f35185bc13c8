// The column of the heap: the tally, then each place that is not as at the start, its letter and number and what it holds.
use super::lent::Left;
use arrayvec::ArrayString;
use rules::{Board, Heap, Tally};
use std::fmt::{Display, Write as _};
use std::io::{Error, Result, Write};

// Room for a place as text, which has 17 characters at most.
const PLACE: usize = 32;

// The places of one list. Each is put together first: a call of the writer for each of its parts takes longer than judging the log.
fn write_places<W: Write, T: PartialEq + Display + Drop>(
    line: &mut W,
    letter: &str,
    list: &[T],
    start: T,
) -> Result<()> {
    for (place, held) in list.iter().enumerate() {
        if *held != start {
            let mut text: ArrayString<PLACE> = ArrayString::new();
            write!(text, " {letter}{place}={held}").map_err(|_| Error::other(
                "no room for a place",
            ))?;
            line.write_all(text.as_bytes())?;
        }
    }
    Ok(())
}

pub fn write_heap<W: Write>(line: &mut W, left: &Left) -> Result<()> {
    if left.is_untouched() {
        return write!(line, "untouched");
    }
    let Tally {
        fields,
        mallocs,
        live,
    } = left.tally;
    let memory = &left.memory;
    write!(line, "fields={fields} mallocs={mallocs} live={live}")?;
    write_places(line, "p", &memory.pointers[..Board::POINTERS], Heap::UNSET)?;
    write_places(line, "s", &memory.selectors[..Heap::SELECTORS], Heap::UNSET)?;
    write_places(line, "x", &memory.variables[..Board::VARIABLES], 0)?;
    write_places(line, "d", &memory.numbers[..Heap::CELLS], 0)?;
    write_places(line, "c", &memory.status[..Heap::CELLS], Heap::NEVER_USED)
}
