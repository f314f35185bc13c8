// What a program lends for one log: both sets of variables, the cells, and the tally.
ghost use Rattle.std.specs.Prelude.{◌≡◌};
ghost use Rattle.console.specs.Memories.{fresh_memory, lent_of};
ghost use Rattle.judge.specs.Judges.{Judges};
ghost use Rattle.judge.specs.Replays.{Replays};

use judge::Buffers;
use rules::{Board, Heap, Tally, Verdict};

#[derive(Clone, Copy)]
pub struct Memory {
    pub board: Board,
    pub heap: Heap,
    pub tally: Tally,
}

// Both methods name the five buffers: a function that returns them borrowed gets no proof.
impl Memory {
    pub fn fresh() -> Self
        ensures { result ≡ fresh_memory }
    {
        Memory {
            board: Board::fresh(),
            heap: Heap::fresh(),
            tally: Tally::fresh(),
        }
    }

    pub fn judge(&mut self, log: &[u8]) -> Verdict
        ensures { Judges log.now (lent_of self.old) result (lent_of self.new) }
    {
        let mut buffers = Buffers {
            pointers: &mut self.board.pointers,
            selectors: &mut self.heap.selectors,
            variables: &mut self.board.variables,
            numbers: &mut self.heap.numbers,
            status: &mut self.heap.status,
        };
        tallied::judge(log, &mut buffers, &mut self.tally)
    }

    pub fn replay(&mut self, log: &[u8], out: &mut [u8]) -> Verdict
        ensures { Replays log.now out.old (lent_of self.old) result out.new (lent_of self.new) }
    {
        let mut buffers = Buffers {
            pointers: &mut self.board.pointers,
            selectors: &mut self.heap.selectors,
            variables: &mut self.board.variables,
            numbers: &mut self.heap.numbers,
            status: &mut self.heap.status,
        };
        tallied::replay(log, out, &mut buffers, &mut self.tally)
    }
}
