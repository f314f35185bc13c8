// The types that the rules speak of: what is lent, the paper's expressions and commands, the answers; each with its limits.
// The rules are the definitions in specs/, in the words of docs/01-scope.md; the code that goes by them is in other crates.
#![tactic(auto)]

ghost use Rattle.std.specs.Prelude.{◌≡◌, Some};
ghost use Rattle.rules.specs.State.{fresh_board, fresh_heap, fresh_tally};
ghost use Rattle.rules.specs.Verdicts.{line_of, printed_of, text_of};

use fields::{Field, RecordedCell, Refusal};
use std::fmt;

// Both sets of variables. It is handed in whole and handed back whole.
// Stays arrays by value with a constructor `fresh`: docs/01-scope.md names these forms.
#[derive(Clone, Copy)]
pub struct Board {
    pub pointers: [u16; Board::POINTERS],
    pub variables: [u32; Board::VARIABLES],
}

impl Board {
    pub const POINTERS: usize = 80;

    pub const VARIABLES: usize = 80;

    pub fn fresh() -> Self
        ensures { result ≡ fresh_board }
    {
        Board {
            pointers: [Heap::UNSET; Board::POINTERS],
            variables: [0; Board::VARIABLES],
        }
    }
}

// The cells: the selector words of cell a at 2a and 2a + 1, its data number and its status at a.
// Stays three arrays, and words and statuses stay numbers: C lends them so.
#[derive(Clone, Copy)]
pub struct Heap {
    pub selectors: [u16; Heap::SELECTORS],
    pub numbers: [u32; Heap::CELLS],
    pub status: [u8; Heap::CELLS],
}

impl Heap {
    pub const CELLS: usize = RecordedCell::COUNT as usize;

    pub const SELECTORS: usize = Heap::CELLS * Field::SELECTORS as usize;

    // The pointer word that points to no cell.
    pub const UNSET: u16 = 1_024;

    // Added to a pointer word where the pointer is not valid.
    pub const INVALID: u16 = 2_048;

    pub const NEVER_USED: u8 = 0;

    pub const LIVE: u8 = 1;

    pub const FREED: u8 = 2;

    pub fn fresh() -> Self
        ensures { result ≡ fresh_heap }
    {
        Heap {
            selectors: [Heap::UNSET; Heap::SELECTORS],
            numbers: [0; Heap::CELLS],
            status: [Heap::NEVER_USED; Heap::CELLS],
        }
    }
}

// Fields done, mallocs done, and the cells that are live.
#[derive(Clone, Copy, PartialEq, Eq)]
pub struct Tally {
    pub fields: u32,
    pub mallocs: u32,
    pub live: u32,
}

impl Tally {
    pub fn fresh() -> Self
        ensures { result ≡ fresh_tally }
    {
        Tally {
            fields: 0,
            mallocs: 0,
            live: 0,
        }
    }
}

// A cell number of a replay. The matching alone joins it to a recorded cell.
// Stays a type beside RecordedCell: docs/01-scope.md names this form.
#[derive(Clone, Copy)]
pub struct ReplayCell(pub u16);

// p, or p.sel
// Stays a type beside DExp: the paper has two kinds of expression, and `place` and `data_place` (specs/Acts.antt) take one each.
#[derive(Clone, Copy)]
pub enum PExp {
    PointerVariable(u8),
    SelectorOf(u8, u8),
}

// x, or p.data
#[derive(Clone, Copy)]
pub enum DExp {
    DataVariable(u8),
    DataOf(u8),
}

// What a data expression holds, a constant, or the sum of two data variables.
#[derive(Clone, Copy)]
pub enum Value {
    Held(DExp),
    Constant(u32),
    Sum(u8, u8),
}

// What is asserted: nothing; that two pointers are the same, or (false) that they are not; that two numbers are equal, or not.
// Stays a bool in each: `as_wanted` (specs/Check.antt) takes it as what is wanted.
#[derive(Clone, Copy)]
pub enum Guard {
    Always,
    Same(bool, u8, u8),
    Equal(bool, u8, u8),
}

// What is done: nothing; p := malloc, of a cell and with its data; free p; a pointer expression := another; a data expression := a value.
#[derive(Clone, Copy)]
pub enum Change {
    Stay,
    Allocate(u8, RecordedCell, u32),
    Release(u8),
    Move(PExp, PExp),
    Put(DExp, Value),
}

// A command.
#[derive(Clone, Copy)]
pub struct Act {
    pub guard: Guard,
    pub change: Change,
}

// Where a pointer word lies: among the pointer variables, or among the selectors.
// Stays a type beside DataPlace: `write` and `store` (specs/State.antt) take one each, so that no data number is put where a word lies.
#[derive(Clone, Copy)]
pub enum Place {
    PointerWord(usize),
    SelectorWord(usize),
}

// Where a data number lies: among the data variables, or among the cells' numbers.
#[derive(Clone, Copy)]
pub enum DataPlace {
    VariableNumber(usize),
    CellNumber(usize),
}

// Why a field does not pass: it races at a variable, or it is refused.
#[derive(Clone, Copy)]
pub enum Stop {
    Race(u8),
    Refuse(Refusal),
}

// What the checks of one field against the heap say.
pub type Answer = Result<(), Stop>;

// What is said of a log: fields, mallocs and live cells; field, thread, variable and byte offset of a race; a refusal met at a field,
// the field and its byte offset; a refusal of the whole call, which is met at no field.
#[derive(Clone, Copy)]
pub enum Verdict {
    Accepted(u32, u32, u32),
    Raced(u32, u8, u8, u32),
    Refused(Refusal, u32, u32),
    Declined(Refusal),
}

// A verdict as it is printed: a word and its numbers, of which the first so many count; the rest of each is 0.
// Stays arrays with their counts, beside Display: no heap, the C interface hands the numbers on, and README names `printed`.
#[derive(Clone, Copy)]
pub struct Printed {
    pub word: [u8; Printed::LETTERS],
    pub letters: usize,
    pub numbers: [u32; Printed::NUMBERS],
    pub count: usize,
}

impl Printed {
    pub const LETTERS: usize = 8;

    pub const NUMBERS: usize = 4;
}

impl Verdict {
    pub fn printed(self) -> Printed
        ensures { result ≡ printed_of self }
    {
        match self {
            Verdict::Accepted(fields, mallocs, live) => Printed {
                word: *b"accepted",
                letters: 8,
                numbers: [fields, mallocs, live, 0],
                count: 3,
            },
            Verdict::Raced(field, thread, variable, offset) => Printed {
                word: *b"race\0\0\0\0",
                letters: 4,
                numbers: [field, u32::from(thread), u32::from(variable), offset],
                count: 4,
            },
            Verdict::Refused(why, field, offset) => Printed {
                word: *b"refused\0",
                letters: 7,
                numbers: [u32::from(why.number()), field, offset, 0],
                count: 3,
            },
            Verdict::Declined(why) => Printed {
                word: *b"refused\0",
                letters: 7,
                numbers: [u32::from(why.number()), 0, 0, 0],
                count: 2,
            },
        }
    }
}

// The line that is printed for a verdict, without its newline.
impl fmt::Display for Verdict {
    ghost output = { λ verdict. Some (text_of (line_of verdict)) };

    #[tactic(auto, using(std::proofs::lemmas::Fmt::decimal_digit))]
    fn fmt<W: fmt::Write>(&self, f: &mut fmt::Formatter<W>) -> fmt::Result {
        match *self {
            Verdict::Accepted(fields, mallocs, live) => {
                write!(f, "accepted {fields} {mallocs} {live}")
            }
            Verdict::Raced(field, thread, variable, offset) => {
                write!(f, "race {field} {thread} {variable} {offset}")
            }
            Verdict::Refused(why, field, offset) => {
                let number = why.number();
                write!(f, "refused {number} {field} {offset}")
            }
            Verdict::Declined(why) => {
                let number = why.number();
                write!(f, "refused {number} 0")
            }
        }
    }
}

// Which of two logs a field is shown of.
// Stays a choice beside both logs: order 3 asks for one call that takes them so (docs/02-orders.md).
#[derive(Clone, Copy)]
pub enum Choice {
    Recording,
    Replay,
}

// A part of a log: the place where it begins, and how many bytes it has.
#[derive(Clone, Copy)]
pub struct Part {
    pub at: usize,
    pub size: usize,
}

// What is said where a field's bytes are asked for: the part that they are, or a refusal and its field.
pub type Shown = Result<Part, (Refusal, u32)>;
