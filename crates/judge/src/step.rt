// One field: decoded, checked, and where it goes, applied.
ghost use Rattle.std.specs.Prelude.{◌≡◌, ◌≤◌};
ghost use Rattle.fields.specs.Limits.{log_fields};
ghost use Rattle.judge.specs.LentHeaps.{SameLists, state_with};
ghost use Rattle.judge.specs.Steps.{step_of, stepped};
ghost use Rattle.rules.specs.Commands.{act_of};

use super::acts::act_of;
use super::lent_heap::LentHeap;
use super::plays::play;
use fields::Field;
use rules::{Answer, Board};

#[derive(Drop)]
pub struct Stepped {
    pub board: Board,
    pub answer: Answer,
}

// The board is handed in whole and handed back whole, and between the two it is changed where it lies.
pub fn step(field: Field, board: Board, heap: &mut LentHeap<'_>) -> Stepped
    requires { heap.old.tally.fields ≤ log_fields }
    ensures by_rule { stepped result.answer result.board heap.new ≡ step_of (act_of field) (state_with board heap.old) }
    ensures same_lists { SameLists heap.old heap.new }
{
    let mut next = board;
    let answer = play(act_of(field), &mut next, heap);
    Stepped {
        board: next,
        answer,
    }
}
