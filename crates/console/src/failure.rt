// A stream that failed, as a line on standard error says it.
ghost use Rattle.std.specs.Prelude.{◌≡◌, length, take};

use arrayvec::ArrayString;
use std::fmt;
use std::fmt::Write;
use std::io::Error;

// The standard stream, and why.
#[derive(Clone, Copy)]
pub enum Failure {
    Input(Error),
    Output(Error),
    Error(Error),
}

// Room for what the system says of an error.
const REASON: usize = 256;

// Of an error's text, the front that the system says; its number stands after that, in parentheses.
fn without_number(text: &str) -> &str
    ensures { result.now ≡ take (length result.now) text.now }
{
    text.rsplit_once(" (os error ")
        .map_or(text, |(reason, _)| reason)
}

impl fmt::Display for Failure {
    fn fmt<W: fmt::Write>(&self, f: &mut fmt::Formatter<W>) -> fmt::Result {
        let (stream, why) = match *self {
            Failure::Input(why) => ("input", why),
            Failure::Output(why) => ("output", why),
            Failure::Error(why) => ("error", why),
        };
        let mut text: ArrayString<REASON> = ArrayString::new();
        // what finds no room is left out
        let _ = write!(text, "{why}");
        let reason = without_number(text.as_str());
        write!(f, "thawhazel: standard {stream}: {reason}")
    }
}
