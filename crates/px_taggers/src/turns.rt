// The header lines on which taggers run, and whose turn it is.
use px_base::Text;
use px_merge::Side;
use px_subst::Vars;

/// The header lines of a message on which taggers run, and what they run with.
#[derive(Drop)]
pub struct TaggerLines<'l> {
    /// The first line and the lines of the fields, all as received.
    pub lines: &'l [Text],
    /// Whose message it is.
    pub side: Side,
    /// The values of a job's words.
    pub vars: &'l Vars,
}

/// One of these lines.
#[derive(Drop)]
pub struct Turn<'l> {
    pub line: &'l [u8],
    pub side: Side,
    pub vars: &'l Vars,
}
