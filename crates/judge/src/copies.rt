// The replay as it is written: the copy of one field, where the field stands in the log.
ghost use Rattle.std.specs.Prelude.{◌≡◌};
ghost use Rattle.judge.specs.LentHeaps.{state_with};
ghost use Rattle.judge.specs.Replays.{copied_at};
ghost use Rattle.rules.specs.Replay.{copy_field, starting_data, to_replay_log};

use super::acts::act_of;
use super::lent_heap::LentHeap;
use fields::{Field, RecordedCell, write_field};
use heap::item_at;
use rules::{Board, Change, Heap, ReplayCell};

// A replay is a log of its own, and its fields name cells of the type that the fields of every log do. Here alone the number of
// a replay cell becomes such a cell.
fn to_replay_log(cell: ReplayCell) -> RecordedCell
    ensures { result ≡ to_replay_log cell }
{
    RecordedCell(cell.0)
}

// What a malloc of this cell starts with: the field's data, unless the cell was used before and keeps its own.
#[tactic(auto, unfolding(rules::specs::Replay::starting_data))]
fn starting_data(cell: RecordedCell, number: u32, heap: &LentHeap<'_>) -> u32
    ensures { (board : Board) → result ≡ starting_data (state_with board heap.now) cell number }
{
    let at = usize::from(cell.0);
    if heap.status_at(at) == Heap::NEVER_USED {
        number
    } else {
        item_at(heap.numbers, at)
    }
}

// The copy of a field, the recording being at this heap: whatever allocates names the next cell of the replay.
fn copy_of(field: Field, next: ReplayCell, heap: &LentHeap<'_>) -> Field
    ensures { (board : Board) → result ≡ copy_field (state_with board heap.now) next field }
{
    match act_of(field).change {
        Change::Allocate(_, cell, number) => Field {
            cell: to_replay_log(next),
            number: starting_data(cell, number, heap),
            ..field
        },
        _ => field,
    }
}

// A field's copy, written where the field stands in the log, if the output reaches there: who writes no replay lends an empty one.
// In an accepted log every copy can be written, so the answer to it is not looked at.
#[tactic(auto, unfolding(crate::specs::Replays::copied_at))]
pub fn copy_field(field: Field, next: ReplayCell, heap: &LentHeap<'_>, at: usize, out: &mut [u8])
    ensures { (board : Board) → out.new ≡ copied_at at (copy_field (state_with board heap.now) next field) out.old }
{
    if at < out.len() {
        let _ = write_field(copy_of(field, next, heap), &mut out[at..]);
    }
}
