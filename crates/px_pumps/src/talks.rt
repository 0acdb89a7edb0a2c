// What came of a request that was sent on.
use px_notes::Conclusion;
use px_templates::Page;

/// What came of a request that was sent on.
#[derive(Clone, Copy, Debug, PartialEq, Eq)]
pub enum Talked {
    /// That page is due, and nothing of an answer was returned.
    Page(Page),
    /// Nothing more is returned.
    Ended(Conclusion),
}
