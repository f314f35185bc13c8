// The lists of the cells: what freeing a cell and giving it out do to the words, to its status, and to the number of live cells.
ghost use Rattle.std.specs.Prelude.{◌≡◌, ◌+◌, ◌-◌, ◌%◌, map, slice_set};
ghost use Rattle.heap.specs.Counts.{live_after, live_cells};
ghost use Rattle.rules.specs.Effect.{change_own, change_word};
ghost use Rattle.rules.specs.Words.{after_free, invalidated, unset};

use super::lists::{item_at, set_item};
use super::words::{after_free, invalidate};
use rules::Heap;

// Every word that holds a freed cell loses validity: one pass over the words, alike at each, so that the compiler makes vector code of it.
#[tactic(auto, unfolding(rules::specs::Words::invalidated, rules::specs::Words::is_valid))]
pub fn sweep(words: &mut [u16], cell: u16)
    ensures { words.new ≡ map (after_free cell) words.old }
{
    let mark = invalidate(cell) - cell;
    for word in words.iter_mut() {
        *word = after_free(cell, mark, *word);
    }
}

fn invalidate_at(words: &mut [u16], i: usize)
    ensures { words.new ≡ change_word invalidated i words.old }
{
    let word = invalidate(item_at(words, i));
    set_item(words, i, word);
}

// Stays beside unset_own: one function over a closure would need a clause of what the closure computes, longer than both.
// Both selectors of a cell lose validity, unset or not.
pub fn invalidate_own(selectors: &mut [u16], cell: u16)
    ensures { selectors.new ≡ change_own invalidated cell selectors.old }
{
    let at = 2 * usize::from(cell);
    invalidate_at(selectors, at);
    invalidate_at(selectors, at + 1);
}

// Both selectors of a cell that was never used are unset and valid.
pub fn unset_own(selectors: &mut [u16], cell: u16)
    ensures { selectors.new ≡ change_own (λ w. unset) cell selectors.old }
{
    let at = 2 * usize::from(cell);
    set_item(selectors, at, Heap::UNSET);
    set_item(selectors, at + 1, Heap::UNSET);
}

// The number of live cells without a cell that had this status. None is left of none.
fn count_down(live: u32, was: u8) -> u32
    ensures { result ≡ live - live_cells was }
{
    if was == Heap::LIVE {
        live.saturating_sub(1)
    } else {
        live
    }
}

// The number of live cells with a cell that gets this status, beside the others.
fn count_up(others: u32, new: u8) -> u32
    ensures { result ≡ (others + live_cells new) % 4294967296 }
{
    if new == Heap::LIVE {
        others.wrapping_add(1)
    } else {
        others
    }
}

// A cell's status changed, and the number of live cells brought along: no other status is read. Whatever number is handed in is
// counted on; where it is the count of the statuses, so is the one handed back.
pub fn change_status(status: &mut [u8], cell: usize, new: u8, live: u32) -> u32
    ensures status_after { status.new ≡ slice_set status.old cell new }
    ensures live_counted { result ≡ live_after status.old cell new live }
{
    if cell < status.len() {
        let others = count_down(live, status[cell]);
        status[cell] = new;
        count_up(others, new)
    } else {
        live
    }
}
