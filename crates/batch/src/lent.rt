// What is lent for a log, and what the log leaves of it. Each buffer is longer than its size and holds beforehand what no log is to
// leave there, so that a place which was to stay and was written is seen.
use console::Poisoned;
use fields::Log;
use judge::{Buffers, Judged};
use rules::{Board, Heap, Tally, Verdict};

pub const OUTPUT: usize = Log::ROOM + Poisoned::SPARE;

pub const BYTE: u8 = 0xee;

const TALLY: Tally = Tally {
    fields: Poisoned::NUMBER,
    mallocs: Poisoned::NUMBER,
    live: Poisoned::NUMBER,
};

// What a log left: its verdict, and what was lent beside the output.
#[derive(Clone, Copy)]
pub struct Left {
    pub verdict: Verdict,
    pub tally: Tally,
    pub memory: Poisoned,
}

// Whether a place from the start on holds another value than before.
fn is_spilled<T: PartialEq + Drop>(list: &[T], start: usize, before: T) -> bool {
    list.iter().skip(start).any(|held| *held != before)
}

// Where what is to stay begins: at the start, or past what may be written.
fn stays_from(written: bool, size: usize) -> usize {
    if written { size } else { 0 }
}

impl Left {
    pub fn by(log: &[u8], output: &mut [u8]) -> Self {
        let mut memory = Poisoned::new();
        let mut buffers = Buffers {
            pointers: &mut memory.pointers,
            selectors: &mut memory.selectors,
            variables: &mut memory.variables,
            numbers: &mut memory.numbers,
            status: &mut memory.status,
        };
        let Judged { verdict, tally } = judge::replay_log(log, output, &mut buffers, TALLY);
        Left {
            verdict,
            tally,
            memory,
        }
    }

    pub fn is_accepted(&self) -> bool {
        matches!(self.verdict, Verdict::Accepted(..))
    }

    // Whether the verdict leaves the heap and the tally as they were.
    pub fn is_untouched(&self) -> bool {
        matches!(self.verdict, Verdict::Declined(_))
    }

    // Whether anything was written of the output that was to stay.
    pub fn has_spilled_output(&self, output: &[u8], length: usize) -> bool {
        is_spilled(output, stays_from(self.is_accepted(), length), BYTE)
    }

    // Whether anything was written of the heap and the tally that was to stay.
    pub fn has_spilled_heap(&self) -> bool {
        let written = !self.is_untouched();
        let memory = &self.memory;
        let pointers = stays_from(written, Board::POINTERS);
        let selectors = stays_from(written, Heap::SELECTORS);
        let variables = stays_from(written, Board::VARIABLES);
        let cells = stays_from(written, Heap::CELLS);
        is_spilled(&memory.pointers, pointers, Poisoned::WORD)
            || is_spilled(&memory.selectors, selectors, Poisoned::WORD)
            || is_spilled(&memory.variables, variables, Poisoned::NUMBER)
            || is_spilled(&memory.numbers, cells, Poisoned::NUMBER)
            || is_spilled(&memory.status, cells, Poisoned::STATUS)
            || (!written && self.tally != TALLY)
    }
}
