// The lists of the board and the heap, read and stored as the rules say. Every function is total, as the definitions are: what
// is read past a list's end is unset, 0 or never used, and what is stored there is lost.
#![tactic(auto)]

mod cells;
mod lists;
mod words;

pub use cells::{change_status, invalidate_own, sweep, unset_own};
pub use lists::{Stored, copy_front, item_at, set_item};
pub use words::{cell_of, is_unset, is_valid};
