//! The lines of a file: comments cut, continued lines joined, white space at the ends dropped.
#![tactic(auto)]

ghost use Rattle.std.specs.Prelude.{◌≡◌, ◌∷◌, []};

mod faults;
mod joinings;
mod lines;
mod parts;

pub use faults::TextFault;
pub use lines::{Line, logical_lines};

/// The most bytes that a joined line may have, before the white space at its ends is dropped.
pub const LINE_LIMIT: usize = 8192;

/// The bytes that mark a file as UTF-8. At the front of a file they are no part of its text.
pub const BYTE_ORDER_MARK: [u8; 3] = [0xef, 0xbb, 0xbf];

const BACKSLASH: u8 = b'\\';

const CARRIAGE_RETURN: u8 = b'\r';

const HASH: u8 = b'#';

const LINE_FEED: u8 = b'\n';

/// The bytes and the limit of the rules.
pub fn constants()
    ensures line_limit { LINE_LIMIT ≡ 8192 }
    ensures byte_order_mark { BYTE_ORDER_MARK ≡ 239 ∷ 187 ∷ 191 ∷ [] }
    ensures backslash { BACKSLASH ≡ 92 }
    ensures carriage_return { CARRIAGE_RETURN ≡ 13 }
    ensures hash { HASH ≡ 35 }
    ensures line_feed { LINE_FEED ≡ 10 }
{}
