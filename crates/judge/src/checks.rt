// The checks of one command against the heap: 11, race, 12, 13, 14. Each gives its own answer, and the first that is not Ok speaks.
ghost use Rattle.std.specs.Prelude.{◌≡◌, [], ◌∷◌, ◌++◌, option_to_list, Ok, Err, if◌then◌else◌};
ghost use Rattle.judge.specs.Answers.{guarded_in, races_in, room_in, through_in, unset_in, vacant_in};
ghost use Rattle.rules.specs.Check.{as_wanted, same_as_wanted};

use super::lent_heap::LentHeap;
use fields::{Log, RecordedCell, Refusal};
use heap::{cell_of, is_unset, is_valid, item_at};
use rules::{Answer, Board, Guard, Heap, Stop};

// 11: a malloc is left for the cell that is given out.
pub fn check_room(heap: &LentHeap<'_>, cell: RecordedCell) -> Answer
    ensures { result ≡ room_in heap.now.tally.mallocs (cell ∷ []) }
{
    if (Log::MALLOCS as u32) <= heap.tally.mallocs {
        return Err(Stop::Refuse(Refusal::TooManyMallocs));
    }
    Ok(())
}

pub fn race_at(pointers: &[u16], look: Option<u8>) -> Answer
    ensures { result ≡ races_in pointers.now (option_to_list look) }
{
    match look {
        Some(p) if !is_valid(item_at(pointers, usize::from(p))) => Err(Stop::Race(p)),
        _ => Ok(()),
    }
}

// 12: the pointer is set.
// Stays beside race_at: one function over a test and a stop, handed in as closures, is longer than both.
fn unset_at(pointers: &[u16], look: Option<u8>) -> Answer
    ensures { result ≡ unset_in pointers.now (option_to_list look) }
{
    match look {
        Some(p) if is_unset(item_at(pointers, usize::from(p))) => {
            Err(Stop::Refuse(Refusal::UnsetPointer))
        }
        _ => Ok(()),
    }
}

// The pointers that a change goes through, by what is assigned to and then by what is assigned: a race at each, then 12 at each.
pub fn check_through(pointers: &[u16], to: Option<u8>, from: Option<u8>) -> Answer
    ensures { result ≡ through_in pointers.now (option_to_list to ++ option_to_list from) }
{
    race_at(pointers, to)?;
    race_at(pointers, from)?;
    unset_at(pointers, to)?;
    unset_at(pointers, from)
}

// 13: the cell is not live.
pub fn check_vacant(heap: &LentHeap<'_>, cell: RecordedCell) -> Answer
    ensures { result ≡ vacant_in heap.now.status.now (cell ∷ []) }
{
    if heap.status_at(usize::from(cell.0)) == Heap::LIVE {
        return Err(Stop::Refuse(Refusal::LiveCell));
    }
    Ok(())
}

fn as_wanted(wanted: bool, found: bool) -> bool
    ensures { result ≡ as_wanted wanted found }
{
    wanted == found
}

// Unset is nil: two that are unset are the same, and one that is unset is no cell.
#[tactic(auto, unfolding(rules::specs::Check::same_as_wanted))]
fn same_as_wanted(wanted: bool, v: u16, w: u16) -> bool
    ensures { result ≡ same_as_wanted wanted v w }
{
    as_wanted(wanted, cell_of(v) == cell_of(w))
}

// 14: the assertion holds.
fn check_holds(holds: bool) -> Answer
    ensures { result ≡ (if holds then Ok tt else Err (Stop.Refuse Refusal.AssertionFails)) }
{
    if holds {
        Ok(())
    } else {
        Err(Stop::Refuse(Refusal::AssertionFails))
    }
}

// The races of an assertion come before what the checks of the change say, and its failure after.
pub fn check_guard(guard: Guard, board: &Board, change: Answer) -> Answer
    ensures { result ≡ guarded_in board.now.pointers board.now.variables guard change }
{
    match guard {
        Guard::Always => change,
        Guard::Same(wanted, p, q) => {
            race_at(&board.pointers, Some(p))?;
            race_at(&board.pointers, Some(q))?;
            change?;
            let v = item_at(&board.pointers, usize::from(p));
            let w = item_at(&board.pointers, usize::from(q));
            check_holds(same_as_wanted(wanted, v, w))
        }
        Guard::Equal(wanted, x, y) => {
            change?;
            let m = item_at(&board.variables, usize::from(x));
            let n = item_at(&board.variables, usize::from(y));
            check_holds(as_wanted(wanted, m == n))
        }
    }
}
