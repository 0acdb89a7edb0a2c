//! Lists of hosts as people have them: hosts files, names alone, and rules of the form `||host^`.
#![tactic(auto)]

mod addresses;
mod faults;
mod gathering;
mod hashes;
mod laws;
mod lists;
mod names;
mod readings;
mod rules;
mod slots;
mod words;

pub use faults::ListFault;
pub use laws::{addresses_are_no_hosts, constants, entries_are_hosts, listed_by_an_entry};
pub use lists::HostList;
pub use readings::{ListNotes, ReadList, read_list};

/// The most bytes that a list's file may have.
pub const BYTE_LIMIT: usize = 0x400_0000;

/// The most hosts that a list may have.
pub const HOST_LIMIT: usize = 2_000_000;

/// The most bytes of a host.
pub const HOST_LENGTH: usize = 253;

/// The most bytes of a label.
pub const LABEL_LENGTH: usize = 63;

/// The bytes that mark a file as UTF-8. At the front of a list they are no part of its text.
const FRONT_MARK: [u8; 3] = [0xef, 0xbb, 0xbf];

const BANG: u8 = b'!';

const CARET: u8 = b'^';

const CARRIAGE_RETURN: u8 = b'\r';

const COLON: u8 = b':';

const COMMA: u8 = b',';

const DOLLAR: u8 = b'$';

const DOT: u8 = b'.';

const HASH: u8 = b'#';

const LINE_FEED: u8 = b'\n';

const FACTOR: u64 = 0x0100_0193;

const MODULUS: u64 = 0x1_0000_0000;
