// What a command is run with.
use crate::statuses::Status;

/// The files, the streams and the clock of a command.
#[derive(Drop)]
pub struct ToolParts<F, S, O, E, T> {
    pub files: F,
    pub input: S,
    pub out: O,
    pub err: E,
    pub clock: T,
}

/// How a command ended: the exit status, and what it was run with.
#[derive(Drop)]
pub struct RanTool<F, S, O, E, T> {
    pub status: u8,
    pub parts: ToolParts<F, S, O, E, T>,
}

/// The same before the status is a number.
pub struct EndedTool<F, S, O, E, T> {
    pub status: Status,
    pub parts: ToolParts<F, S, O, E, T>,
}
