// What a command that passed the checks does to the board, the heap and the tally.
ghost use Rattle.std.specs.Prelude.{◌≡◌, ◌+◌, ◌%◌, ◌≤◌, if◌then◌else◌, nat_eq, slice_set};
ghost use Rattle.fields.specs.Limits.{log_fields};
ghost use Rattle.judge.specs.LentHeaps.{SameLists, state_with};
ghost use Rattle.rules.specs.Acts.{data_place_in, place_in, value_in};
ghost use Rattle.rules.specs.Effect.{apply, change_own, free, give};
ghost use Rattle.rules.specs.State.{datum_in, never_used, number_at, store, word_in, write};
ghost use Rattle.rules.specs.Words.{unset};

use super::lent_heap::LentHeap;
use heap::{cell_of, invalidate_own, is_unset, item_at, set_item, sweep, unset_own};
use rules::{Board, Change, DExp, DataPlace, Heap, PExp, Place, Value};

// The functions for words and for data stay two: the definitions that they meet take a Place or a DataPlace, and a word is no number.
fn place_of(pointers: &[u16], e: PExp) -> Place
    ensures { result ≡ place_in pointers.now e }
{
    match e {
        PExp::PointerVariable(p) => Place::PointerWord(usize::from(p)),
        PExp::SelectorOf(p, selector) => {
            let cell = cell_of(item_at(pointers, usize::from(p)));
            Place::SelectorWord(2 * usize::from(cell) + usize::from(selector))
        }
    }
}

fn word_in(board: &Board, heap: &LentHeap<'_>, place: Place) -> u16
    ensures { result ≡ word_in board.now.pointers heap.now.selectors.now place }
{
    match place {
        Place::PointerWord(i) => item_at(&board.pointers, i),
        Place::SelectorWord(i) => item_at(heap.selectors, i),
    }
}

#[tactic(auto, unfolding(rules::specs::State::write))]
fn write_word(board: &mut Board, heap: &mut LentHeap<'_>, place: Place, word: u16)
    ensures by_rule { state_with board.new heap.new ≡ write place word (state_with board.old heap.old) }
    ensures same_lists { SameLists heap.old heap.new }
{
    match place {
        Place::PointerWord(i) => set_item(&mut board.pointers, i, word),
        Place::SelectorWord(i) => set_item(heap.selectors, i, word),
    }
}

fn data_place_of(pointers: &[u16], e: DExp) -> DataPlace
    ensures { result ≡ data_place_in pointers.now e }
{
    match e {
        DExp::DataVariable(x) => DataPlace::VariableNumber(usize::from(x)),
        DExp::DataOf(p) => {
            let cell = cell_of(item_at(pointers, usize::from(p)));
            DataPlace::CellNumber(usize::from(cell))
        }
    }
}

fn datum_in(board: &Board, heap: &LentHeap<'_>, place: DataPlace) -> u32
    ensures { result ≡ datum_in board.now.variables heap.now.numbers.now place }
{
    match place {
        DataPlace::VariableNumber(i) => item_at(&board.variables, i),
        DataPlace::CellNumber(i) => item_at(heap.numbers, i),
    }
}

// Version counters wrap.
fn sum_of(variables: &[u32], y: u8, z: u8) -> u32
    ensures { result ≡ (number_at variables.now y + number_at variables.now z) % 4294967296 }
{
    item_at(variables, usize::from(y)).wrapping_add(item_at(variables, usize::from(z)))
}

fn value_in(board: &Board, heap: &LentHeap<'_>, value: Value) -> u32
    ensures { result ≡ value_in board.now.pointers board.now.variables heap.now.numbers.now value }
{
    match value {
        Value::Held(e) => datum_in(board, heap, data_place_of(&board.pointers, e)),
        Value::Constant(number) => number,
        Value::Sum(y, z) => sum_of(&board.variables, y, z),
    }
}

#[tactic(auto, unfolding(rules::specs::State::store))]
fn store_number(board: &mut Board, heap: &mut LentHeap<'_>, place: DataPlace, number: u32)
    ensures by_rule { state_with board.new heap.new ≡ store place number (state_with board.old heap.old) }
    ensures same_lists { SameLists heap.old heap.new }
{
    match place {
        DataPlace::VariableNumber(i) => set_item(&mut board.variables, i, number),
        DataPlace::CellNumber(i) => set_item(heap.numbers, i, number),
    }
}

// A never-used cell takes the field's data, and its selectors are unset and valid. A reused cell keeps them.
fn renew(selectors: &mut [u16], numbers: &mut [u32], was: u8, cell: u16, number: u32)
    ensures selectors_after { selectors.new ≡ (if nat_eq was never_used then change_own (λ w. unset) cell selectors.old else selectors.old) }
    ensures numbers_after { numbers.new ≡ (if nat_eq was never_used then slice_set numbers.old cell number else numbers.old) }
{
    if was == Heap::NEVER_USED {
        unset_own(selectors, cell);
        set_item(numbers, usize::from(cell), number);
    }
}

#[tactic(auto, unfolding(rules::specs::Effect::give))]
pub fn give_cell(p: u8, cell: u16, number: u32, board: &mut Board, heap: &mut LentHeap<'_>)
    requires { heap.old.tally.mallocs ≤ log_fields }
    ensures by_rule { state_with board.new heap.new ≡ give p cell number (state_with board.old heap.old) }
    ensures same_lists { SameLists heap.old heap.new }
{
    let at = usize::from(cell);
    let was = heap.status_at(at);
    renew(heap.selectors, heap.numbers, was, cell, number);
    heap.change_status(at, Heap::LIVE);
    heap.tally.mallocs += 1;
    set_item(&mut board.pointers, usize::from(p), cell);
}

#[tactic(auto, unfolding(rules::specs::Effect::free))]
fn free_cell(cell: u16, board: &mut Board, heap: &mut LentHeap<'_>)
    ensures by_rule { state_with board.new heap.new ≡ free cell (state_with board.old heap.old) }
    ensures same_lists { SameLists heap.old heap.new }
{
    sweep(&mut board.pointers, cell);
    sweep(heap.selectors, cell);
    invalidate_own(heap.selectors, cell);
    heap.change_status(usize::from(cell), Heap::FREED);
}

// The free of an unset pointer changes nothing.
pub fn release(p: u8, board: &mut Board, heap: &mut LentHeap<'_>)
    ensures by_rule { state_with board.new heap.new ≡ apply (Change.Release p) (state_with board.old heap.old) }
    ensures same_lists { SameLists heap.old heap.new }
{
    let word = item_at(&board.pointers, usize::from(p));
    if !is_unset(word) {
        free_cell(cell_of(word), board, heap);
    }
}

// A copy takes the whole word, mark included.
pub fn move_word(to: PExp, from: PExp, board: &mut Board, heap: &mut LentHeap<'_>)
    ensures by_rule { state_with board.new heap.new ≡ apply (Change.Move to from) (state_with board.old heap.old) }
    ensures same_lists { SameLists heap.old heap.new }
{
    let target = place_of(&board.pointers, to);
    let word = word_in(board, heap, place_of(&board.pointers, from));
    write_word(board, heap, target, word);
}

pub fn put_number(to: DExp, value: Value, board: &mut Board, heap: &mut LentHeap<'_>)
    ensures by_rule { state_with board.new heap.new ≡ apply (Change.Put to value) (state_with board.old heap.old) }
    ensures same_lists { SameLists heap.old heap.new }
{
    let target = data_place_of(&board.pointers, to);
    let number = value_in(board, heap, value);
    store_number(board, heap, target, number);
}
