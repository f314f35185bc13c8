// Buffers that are longer than their sizes and hold beforehand what no log leaves there, so that a place which was written is seen.
ghost use Rattle.std.specs.Prelude.{◌≡◌};
ghost use Rattle.console.specs.Memories.{poisoned_memory};

use rules::{Board, Heap};

// Five arrays, as five buffers are lent: no heap, fixed memory.
#[derive(Clone, Copy)]
pub struct Poisoned {
    pub pointers: [u16; Poisoned::POINTERS],
    pub selectors: [u16; Poisoned::SELECTORS],
    pub variables: [u32; Poisoned::VARIABLES],
    pub numbers: [u32; Poisoned::CELLS],
    pub status: [u8; Poisoned::CELLS],
}

impl Poisoned {
    // Places that each buffer has past its size.
    pub const SPARE: usize = 8;

    pub const POINTERS: usize = Board::POINTERS + Poisoned::SPARE;

    pub const SELECTORS: usize = Heap::SELECTORS + Poisoned::SPARE;

    pub const VARIABLES: usize = Board::VARIABLES + Poisoned::SPARE;

    pub const CELLS: usize = Heap::CELLS + Poisoned::SPARE;

    pub const WORD: u16 = 0xaaaa;

    pub const NUMBER: u32 = 0xaaaa_aaaa;

    pub const STATUS: u8 = 0xaa;

    pub fn new() -> Self
        ensures { result ≡ poisoned_memory }
    {
        Poisoned {
            pointers: [Poisoned::WORD; Poisoned::POINTERS],
            selectors: [Poisoned::WORD; Poisoned::SELECTORS],
            variables: [Poisoned::NUMBER; Poisoned::VARIABLES],
            numbers: [Poisoned::NUMBER; Poisoned::CELLS],
            status: [Poisoned::STATUS; Poisoned::CELLS],
        }
    }
}
