// How an answer stands.
use px_notes::Ending;
use px_templates::Page;

/// How an answer stands.
#[derive(Clone, Copy, Debug, PartialEq, Eq)]
pub enum Flow {
    /// It may go on.
    More,
    /// All that is returned of it was put out.
    Done(Ending),
    /// That page is returned in its place, and nothing was put out.
    Refused(Page),
}
