// The heap as it is lent, with the tally that is kept of it: both go through the judge together.
ghost use Rattle.std.specs.Prelude.{◌≡◌, ◌≤◌, length, slice_index_or, slice_set};
ghost use Rattle.fields.specs.Limits.{cells};
ghost use Rattle.rules.specs.Run.{live_count};
ghost use Rattle.rules.specs.State.{never_used};

use heap::{change_status, item_at};
use rules::Tally;

// The selector words of cell a at 2a and 2a + 1, its data number and its status at a.
#[derive(Drop)]
pub struct LentHeap<'a> {
    pub selectors: &'a mut [u16],
    pub numbers: &'a mut [u32],
    pub status: &'a mut [u8],
    pub tally: Tally,
    ghost few: { length status.now ≤ cells },
    ghost counted: { tally.live ≡ live_count status.now },
}

impl LentHeap<'_> {
    ghost use Rattle.judge.specs.LentHeaps.{SameLists};

    pub fn status_at(&self, i: usize) -> u8
        ensures { result ≡ slice_index_or self.now.status.now i never_used }
    {
        item_at(self.status, i)
    }

    // A cell's status changed, and the number of live cells brought along.
    #[tactic(auto, using(heap::proofs::Counting::live_kept))]
    pub fn change_status(&mut self, cell: usize, new: u8)
        ensures status_after { self.new.status.now ≡ slice_set self.old.status.now cell new }
        ensures others_after { (self.new.selectors.now ≡ self.old.selectors.now) × (self.new.numbers.now ≡ self.old.numbers.now) }
        ensures counts_after { (self.new.tally.fields ≡ self.old.tally.fields) × (self.new.tally.mallocs ≡ self.old.tally.mallocs) }
        ensures same_lists { SameLists self.old self.new }
    {
        self.tally.live = change_status(self.status, cell, new, self.tally.live);
    }
}
