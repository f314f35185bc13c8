// Reading that ends where the input's end was seen, and writing that is whole. Of std's own `read_exact` and `write_all` no clause
// says what they did where they fail, and `read_to_end` has no room that it keeps to; here each answer of the system is told apart.
#![tactic(auto)]

mod line;
mod reading;
mod writing;

ghost use Rattle.streams.specs.Answers.{is_interrupted};
ghost use Rattle.std.specs.Prelude.{◌≡◌};

pub use line::{Line, write_line};
pub use reading::{Filled, Stop, read_into};
use std::io::{Error, ErrorKind};
pub use writing::write_whole;

// Whether a signal came before the call moved a byte.
fn is_interrupted(error: Error) -> bool
    ensures { result ≡ is_interrupted error }
{
    matches!(error.kind(), ErrorKind::Interrupted)
}

#[cfg(test)]
mod tests;
