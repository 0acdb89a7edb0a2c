// What an answer's head settles.
use px_base::{List, Text};
use px_fields::Field;
use px_framing::BodyRule;

/// Which bytes of a body are returned.
#[derive(Clone, Copy, Debug, PartialEq, Eq)]
pub enum Form {
    /// Its bytes as they came.
    Raw,
    /// The data of its chunks alone, to a client of HTTP/1.0, which reads no chunks (RFC 9112, section 7.1).
    Plain,
}

/// How an answer was returned.
#[derive(Clone, Copy, Debug, PartialEq, Eq)]
pub enum Returned {
    /// With its whole body, unfiltered.
    Passed,
    /// With what the content filters made of its whole body.
    Filtered,
    /// It has no body.
    Bodiless,
    /// Its body was cut or misframed, or its reading failed: the front of it that came.
    CutFront,
}

/// What came of an answer.
#[derive(Clone, Copy, Debug, PartialEq, Eq)]
pub struct AnswerOutcome {
    pub returned: Returned,
    /// Whether the connection may be kept behind it.
    pub keep: bool,
}

/// What an answer's head settles.
#[derive(Drop)]
pub struct Framed {
    /// The status line, without its end.
    pub first_line: Text,
    /// The fields behind the header actions, without those that frame the body and without Connection.
    pub fields: List<Field>,
    /// By which rule the body is read.
    pub rule: BodyRule,
    /// Which bytes of an unfiltered body are returned.
    pub form: Form,
    /// What frames an unfiltered body: one field, or none.
    pub framing: List<Field>,
    /// The content filters by name. None: filtering is excluded by the head.
    pub filters: Option<List<Text>>,
    /// The most raw bytes of a body that is filtered.
    pub limit: u64,
    /// Whether the connection may be kept behind the answer.
    pub keep: bool,
}
