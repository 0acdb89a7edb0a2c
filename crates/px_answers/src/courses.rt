// How far the body of an answer has come.
use crate::forms::AnswerOutcome;
use px_base::Text;
use px_framing::BodyReader;

/// How far the body of an answer has come.
#[derive(Drop)]
pub enum Course {
    /// It may still be filtered: its raw bytes are held, and nothing was put out.
    Holding { raw: Text, reader: BodyReader },
    /// It is put out unfiltered as it comes.
    Passing { reader: BodyReader },
    /// All that is returned was put out.
    Ended(AnswerOutcome),
    /// Memory was wanting.
    Wanting,
}
