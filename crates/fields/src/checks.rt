// The checks 7 to 10 of a field's numbers, by its row.
ghost use Rattle.std.specs.Prelude.{◌≡◌, ℕ, Bool, ◌<◌, Ok, Err};
ghost use Rattle.fields.specs.Checks.{Computes, every_slot, is_cell, is_named, is_selected, may_name, names_variable, value_checks};
ghost use Rattle.fields.specs.Order.{in_order};

use super::rows::{Row, Slot};
use super::{Field, RecordedCell, Refusal};

// Past the shared variables each thread owns as many as the next: which one owns a variable is a quotient.
#[tactic(auto, unfolding(crate::specs::Checks::may_name))]
fn may_name(thread: u8, x: u8) -> bool
    ensures { result ≡ may_name thread x }
{
    x < Field::SHARED || (x - Field::SHARED) / Field::OWNED == thread
}

fn names_variable(slot: Slot) -> bool
    ensures { result ≡ names_variable slot }
{
    matches!(slot, Slot::Pointer | Slot::Data)
}

fn is_named(thread: u8, slot: Slot, x: u8) -> bool
    ensures { result ≡ is_named thread slot x }
{
    !names_variable(slot) || may_name(thread, x)
}

fn is_selected(slot: Slot, x: u8) -> bool
    ensures { result ≡ is_selected slot x }
{
    !matches!(slot, Slot::Selector) || x < Field::SELECTORS
}

fn is_cell(there: bool, cell: RecordedCell) -> bool
    ensures { result ≡ is_cell there cell.0 }
{
    !there || cell.0 < RecordedCell::COUNT
}

// Whether the number of each slot is right, by what the closure says of a slot and its number.
fn every_slot<F: Fn(Slot, u8) -> bool>(row: Row, field: Field, is_right: F) -> bool
    requires { F.IsAlwaysCallable is_right }
    ensures { (right : Slot → ℕ → Bool) → Computes (F.post is_right) right → result ≡ every_slot right row field }
{
    let Row(first, second, third, _, _) = row;
    is_right(first, field.first) && is_right(second, field.second) && is_right(third, field.third)
}

pub fn check_value(row: Row, field: Field) -> Result<(), Refusal>
    ensures { result ≡ in_order Err (Ok tt) (value_checks row field) }
{
    let Row(_, _, _, there, _) = row;
    if Field::THREADS <= field.thread {
        return Err(Refusal::UnknownThread);
    }
    if !every_slot(row, field, |slot, x| is_named(field.thread, slot, x)) {
        return Err(Refusal::ForeignVariable);
    }
    if !every_slot(row, field, is_selected) {
        return Err(Refusal::UnknownSelector);
    }
    if !is_cell(there, field.cell) {
        return Err(Refusal::UnknownCell);
    }
    Ok(())
}
