// Sections of actions files.
use crate::patterns::Pattern;
use px_actions::Update;
use px_base::List;

/// A section of an actions file.
#[derive(Drop)]
pub struct Section {
    /// The number of its heading's line, from 1.
    pub line: u32,
    /// The updates of its heading's words, aliases replaced.
    pub updates: List<Update>,
    pub patterns: List<Pattern>,
}
