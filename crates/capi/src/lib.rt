// The C interface: the judge, the replay, one field read or written, and where a field stands in a log, over plain numbers and slices.
// In C each slice is two arguments, a pointer and a length in elements; include/thawhazel.h has the declarations.
#![tactic(auto)]

mod fronts;
mod judging;
mod showing;
mod single;
mod telling;

pub use judging::{thawhazel_judge, thawhazel_replay};
pub use showing::thawhazel_show;
pub use single::{thawhazel_read_field, thawhazel_write_field};
