// The five buffers that a caller lends, which go together.
ghost use Rattle.std.specs.Prelude.{◌≡◌};
ghost use Rattle.rules.specs.Judging.{long_enough};

use rules::{Board, Heap, Tally};

// Each of any length: the pointer words and the data numbers of the variables, and the lists of the cells.
#[derive(Drop)]
pub struct Buffers<'a> {
    pub pointers: &'a mut [u16],
    pub selectors: &'a mut [u16],
    pub variables: &'a mut [u32],
    pub numbers: &'a mut [u32],
    pub status: &'a mut [u8],
}

impl Buffers<'_> {
    ghost use Rattle.judge.specs.Lendings.{lent_in};

    // Whether no buffer is shorter than its size.
    #[tactic(auto, unfolding(rules::specs::Judging::long_enough))]
    pub fn are_long_enough(&self) -> bool
        ensures { (tally : Tally) → result ≡ long_enough (lent_in self.now tally) }
    {
        Board::POINTERS <= self.pointers.len()
            && Heap::SELECTORS <= self.selectors.len()
            && Board::VARIABLES <= self.variables.len()
            && Heap::CELLS <= self.numbers.len()
            && Heap::CELLS <= self.status.len()
    }
}
