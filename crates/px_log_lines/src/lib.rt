//! A line of the access log: the common log format, and behind it how the exchange ended and a field that is kept free.
#![tactic(auto)]

ghost use Rattle.std.specs.Prelude.{◌≡◌};

mod endings;
mod escapes;
mod lines;
mod moments;
mod requests;
mod texts;

pub use lines::LogEntry;
pub use requests::REQUEST_SHOWN;
pub use texts::{LINE_ROOM, LINE_SHOWN};

/// What the constants of this crate are.
pub fn constants()
    ensures request { REQUEST_SHOWN ≡ 900 }
    ensures line { LINE_SHOWN ≡ 4095 }
    ensures room { LINE_ROOM ≡ 4096 }
{}
