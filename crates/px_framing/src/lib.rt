//! The bodies of HTTP/1.x messages (RFC 9112, sections 6 and 7): by which rule a body is read, and a reader that takes it in
//! any pieces.
//!
//! Words for how far a body is read, from the inside out:
//! - `Verdict`: what a byte makes of a line. `ChunkPlace`: what comes next in a chunked body.
//! - `Gone`: a step in a piece of a chunked body. `Reach`: all steps in it. `Far`: a piece of any body.
//! - `Stage`: what a body may still take. `State`: how it stands.
//! - `Fed`, `Passed`: what a call of the reader answers.
//! - In the specifications, `Reading` is a reader's value, `Part` what whole bytes are read to, `Steps` a piece between two
//!   readings, and `due` what a reading has still to give.
#![tactic(auto)]

mod advances;
mod buffers;
mod codings;
mod extracts;
mod laws;
mod lines;
mod passes;
mod places;
mod readers;
mod rules;
mod stages;

pub use codings::{codings as transfer_codings, is_chunked_alone};
pub use extracts::data_of_whole;
pub use laws::{body_is_one, body_is_read, constants, cuts_agree, raw_is_whole, read_is_said};
pub use places::{ChunkPlace, State};
pub use readers::{BodyReader, Fed, Passed};
pub use rules::{BodyFault, BodyRule, request_body, response_body};
pub use stages::Stage;

/// The most bytes of a body: of a stated length, and of one whose length isn't stated.
pub const BODY_LIMIT: u64 = 9_223_372_036_854_775_807;

/// The most bytes of a line of a chunked body, with its CRLF.
pub const LINE_LIMIT: usize = 8_192;
