// Where sections stand.
use px_action_files::Section;

/// A section and the number of its file, counted from 0.
#[derive(Drop)]
pub struct Placed {
    pub file: u32,
    pub section: Section,
}

/// Where a section stands.
#[derive(Clone, Copy, Debug, PartialEq, Eq)]
pub struct SectionRef {
    /// The number of its file, counted from 0.
    pub file: u32,
    /// The number of its heading's line, counted from 1.
    pub line: u32,
}

/// How many files there are, and how many sections and patterns stand in them.
#[derive(Clone, Copy, Debug, PartialEq, Eq)]
pub struct SectionCounts {
    pub files: u32,
    pub sections: u32,
    pub patterns: u32,
}

/// Where a pattern stands: the number of its section among all, and its number in the section, each counted from 0.
#[derive(Clone, Copy)]
pub struct PatternPlace {
    pub section: usize,
    pub pattern: usize,
}
