// A field as a command: one arm for each tag. All that follows goes by the command, and no longer by the tag.
ghost use Rattle.std.specs.Prelude.{◌≡◌};
ghost use Rattle.rules.specs.Commands.{act_of, asserts, does};

use fields::Field;
use rules::Change::{Allocate, Move, Put, Release, Stay};
use rules::DExp::{DataOf, DataVariable};
use rules::Guard::{Always, Equal, Same};
use rules::PExp::{PointerVariable, SelectorOf};
use rules::Value::{Constant, Held, Sum};
use rules::{Act, Change, Guard};

fn does(change: Change) -> Act
    ensures { result ≡ does change }
{
    Act {
        guard: Always,
        change,
    }
}

fn asserts(guard: Guard) -> Act
    ensures { result ≡ asserts guard }
{
    Act {
        guard,
        change: Stay,
    }
}

// Stays numbers for tags: `Field` has a byte there, and `act_of` (rules, specs/Commands.antt) answers on every byte.
#[tactic(auto, unfolding(rules::specs::Commands::command_of))]
pub fn act_of(field: Field) -> Act
    ensures { result ≡ act_of field }
{
    let Field {
        tag,
        first,
        second,
        third,
        cell,
        number,
        ..
    } = field;
    match tag {
        1 => does(Allocate(first, cell, number)),
        2 => does(Release(first)),
        3 => does(Move(PointerVariable(first), PointerVariable(second))),
        4 => does(Move(PointerVariable(first), SelectorOf(second, third))),
        5 => does(Move(SelectorOf(first, second), PointerVariable(third))),
        6 => does(Put(DataVariable(first), Held(DataOf(second)))),
        7 => does(Put(DataOf(first), Held(DataVariable(second)))),
        8 => does(Put(DataVariable(first), Constant(number))),
        9 => asserts(Same(true, first, second)),
        10 => asserts(Same(false, first, second)),
        11 => asserts(Equal(true, first, second)),
        12 => asserts(Equal(false, first, second)),
        13 => does(Put(DataVariable(first), Sum(second, third))),
        14 => Act {
            guard: Same(true, first, second),
            change: Move(PointerVariable(first), PointerVariable(third)),
        },
        15 => asserts(Same(false, first, second)),
        _ => does(Stay),
    }
}
