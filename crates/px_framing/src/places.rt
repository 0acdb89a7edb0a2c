// What comes next in a chunked body.

/// What comes next in a chunked body.
#[derive(Clone, Copy, Debug, PartialEq, Eq)]
pub enum ChunkPlace {
    /// A size line.
    Size,
    /// So many bytes of data.
    Data(u64),
    /// The CRLF after the data.
    Gap,
    /// A trailer line or the last line, after so many bytes of trailer lines.
    Trailers(usize),
    /// Nothing: the body is whole.
    Done,
    /// Nothing: no body goes on so.
    Wrong,
}

/// How a body stands.
#[derive(Clone, Copy, Debug, PartialEq, Eq)]
pub enum State {
    /// It may go on.
    More,
    /// It is whole.
    Whole,
    /// It ended too early, or reached the greatest number of bytes.
    Cut,
    /// No continuation is a body.
    Misframed,
}

/// What a byte makes of a line.
#[derive(Clone, Copy, Debug, PartialEq, Eq)]
pub enum Verdict {
    /// The line may go on.
    Open,
    /// The line is whole, and this comes next.
    Line(ChunkPlace),
    /// No line that may stand there goes on so.
    Wrong,
}
