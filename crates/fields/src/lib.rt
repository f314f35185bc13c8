// One field of a log of pointer commands: read at the front of a part of a log, or written at the front of an output.
// What is right is said in specs/, in the words of docs/01-scope.md; every other crate goes by those definitions.
#![tactic(auto)]

mod checks;
mod frame;
mod numbers;
mod reader;
mod rows;
mod short;
mod writer;

ghost use Rattle.std.specs.Prelude.{◌≡◌};
ghost use Rattle.fields.specs.Log.{fresh_log};
ghost use Rattle.fields.specs.Refusals.{number_of};

pub use reader::read_field;
pub use rows::{Row, Slot, value_length};
pub use short::ShortLog;
pub use writer::write_field;

// A log as a program holds it: its bytes, of which the first `length` count.
// Stays bytes with a length beside them: memory is fixed here, so there is no Vec.
#[derive(Clone, Copy)]
pub struct Log {
    pub bytes: [u8; Log::ROOM],
    pub length: usize,
}

impl Log {
    pub const BYTES: usize = 45_056;

    pub const FIELDS: usize = 4_096;

    pub const MALLOCS: usize = 1_024;

    // One byte more than a log may have, so that a log that is too long is seen to be.
    pub const ROOM: usize = Log::BYTES + 1;

    pub fn fresh() -> Self
        ensures { result ≡ fresh_log }
    {
        Log {
            bytes: [0; Log::ROOM],
            length: 0,
        }
    }
}

// A cell number as a log records it. The cells of a replay have a type of their own.
#[derive(Clone, Copy)]
pub struct RecordedCell(pub u16);

impl RecordedCell {
    pub const COUNT: u16 = 1_024;
}

// A field: its tag and thread, and the numbers of its tag's row in their order. Of a field that was read, those that the row
// lacks are 0; of one that is written, they are ignored.
// The tag stays a number: the writer takes any, and refuses one that the table lacks.
#[derive(Clone, Copy)]
pub struct Field {
    pub tag: u8,
    pub thread: u8,
    pub first: u8,
    pub second: u8,
    pub third: u8,
    pub cell: RecordedCell,
    pub number: u32,
}

impl Field {
    pub const HEADER: usize = 3;

    pub const THREADS: u8 = 8;

    pub const SHARED: u8 = 16;

    pub const OWNED: u8 = 8;

    pub const SELECTORS: u8 = 2;
}

// Why a log, a field or a buffer is refused, by the numbers of document 01 and of the orders.
#[derive(Clone, Copy)]
pub enum Refusal {
    LogTooLong = 1,
    BufferTooShort = 2,
    TooManyFields = 3,
    CutShort = 4,
    UnknownTag = 5,
    WrongLength = 6,
    UnknownThread = 7,
    ForeignVariable = 8,
    UnknownSelector = 9,
    UnknownCell = 10,
    TooManyMallocs = 11,
    UnsetPointer = 12,
    LiveCell = 13,
    AssertionFails = 14,
    OutputTooShort = 15,
    FieldNotReached = 16,
}

impl Refusal {
    // The number that document 01, or an order, gives a refusal.
    pub fn number(self) -> u8
        ensures { result ≡ number_of self }
    {
        self as u8
    }
}
