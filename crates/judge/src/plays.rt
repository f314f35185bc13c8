// One command on the board and the heap. Its kind is looked at once: each kind makes its checks, and where all of them pass, its change.
ghost use Rattle.std.specs.Prelude.{◌≡◌, ◌≤◌};
ghost use Rattle.fields.specs.Limits.{log_fields};
ghost use Rattle.judge.specs.LentHeaps.{SameLists, state_with};
ghost use Rattle.judge.specs.Steps.{change_of, step_of, stepped};

use super::checks::{check_guard, check_room, check_through, check_vacant, race_at};
use super::effects::{give_cell, move_word, put_number, release};
use super::lent_heap::LentHeap;
use super::looks::{data_through, pointer_through, value_through};
use fields::RecordedCell;
use rules::{Act, Answer, Board, Change, DExp, Guard, PExp, Value};

// Board and heap stay two parameters here and below: document 01 names the form of the board, by value in and out of the step.
// 11 comes before a race of the assertion.
#[tactic(auto, using(crate::proofs::Steps::play_full, crate::proofs::Steps::play_on))]
fn play_malloc(
    guard: Guard,
    p: u8,
    cell: RecordedCell,
    number: u32,
    board: &mut Board,
    heap: &mut LentHeap<'_>,
) -> Answer
    ensures by_rule { stepped result board.new heap.new ≡ change_of (record { guard = guard; change = Change.Allocate p cell number }) (state_with board.old heap.old) }
    ensures same_lists { SameLists heap.old heap.new }
{
    check_room(heap, cell)?;
    check_guard(guard, board, check_vacant(heap, cell))?;
    give_cell(p, cell.0, number, board, heap);
    Ok(())
}

#[tactic(auto, using(crate::proofs::Steps::play_on))]
fn play_free(guard: Guard, p: u8, board: &mut Board, heap: &mut LentHeap<'_>) -> Answer
    ensures by_rule { stepped result board.new heap.new ≡ change_of (record { guard = guard; change = Change.Release p }) (state_with board.old heap.old) }
    ensures same_lists { SameLists heap.old heap.new }
{
    check_guard(guard, board, race_at(&board.pointers, Some(p)))?;
    release(p, board, heap);
    Ok(())
}

#[tactic(auto, using(crate::proofs::Steps::play_on))]
fn play_move(
    guard: Guard,
    to: PExp,
    from: PExp,
    board: &mut Board,
    heap: &mut LentHeap<'_>,
) -> Answer
    ensures by_rule { stepped result board.new heap.new ≡ change_of (record { guard = guard; change = Change.Move to from }) (state_with board.old heap.old) }
    ensures same_lists { SameLists heap.old heap.new }
{
    let passed = check_through(&board.pointers, pointer_through(to), pointer_through(from));
    check_guard(guard, board, passed)?;
    move_word(to, from, board, heap);
    Ok(())
}

#[tactic(auto, using(crate::proofs::Steps::play_on))]
fn play_put(
    guard: Guard,
    to: DExp,
    value: Value,
    board: &mut Board,
    heap: &mut LentHeap<'_>,
) -> Answer
    ensures by_rule { stepped result board.new heap.new ≡ change_of (record { guard = guard; change = Change.Put to value }) (state_with board.old heap.old) }
    ensures same_lists { SameLists heap.old heap.new }
{
    let passed = check_through(&board.pointers, data_through(to), value_through(value));
    check_guard(guard, board, passed)?;
    put_number(to, value, board, heap);
    Ok(())
}

// An assertion reads the board, and changes nothing.
#[tactic(auto, using(crate::proofs::Steps::play_stay))]
fn play_change(act: Act, board: &mut Board, heap: &mut LentHeap<'_>) -> Answer
    ensures by_rule { stepped result board.new heap.new ≡ change_of act (state_with board.old heap.old) }
    ensures same_lists { SameLists heap.old heap.new }
{
    let guard = act.guard;
    match act.change {
        Change::Stay => check_guard(guard, board, Ok(())),
        Change::Allocate(p, cell, number) => play_malloc(guard, p, cell, number, board, heap),
        Change::Release(p) => play_free(guard, p, board, heap),
        Change::Move(to, from) => play_move(guard, to, from, board, heap),
        Change::Put(to, value) => play_put(guard, to, value, board, heap),
    }
}

// The command, and its field counted where it passes.
pub fn play(act: Act, board: &mut Board, heap: &mut LentHeap<'_>) -> Answer
    requires { heap.old.tally.fields ≤ log_fields }
    ensures by_rule { stepped result board.new heap.new ≡ step_of act (state_with board.old heap.old) }
    ensures same_lists { SameLists heap.old heap.new }
{
    play_change(act, board, heap)?;
    heap.tally.fields += 1;
    Ok(())
}
