// Configurations.
ghost use Rattle.std.specs.Prelude.{◌≡◌, length};

use crate::settings::{Note, Settings};
use px_base::{List, Text};
use px_decide::Forwards;
use px_filter_files::Filters;
use px_merge::Sections;
use px_templates::Template;

/// A whole configuration.
#[derive(Drop)]
pub struct Config {
    pub settings: Settings,
    pub sections: Sections,
    pub filters: Filters,
    pub forwards: Forwards,
    /// The templates, in the order of the pages.
    pub pages: List<Template>,
    /// The image that is blank, if there is one.
    pub image_blank: Option<Text>,
    /// The image of a pattern, if there is one.
    pub image_pattern: Option<Text>,
    /// What was ignored or skipped, in the order of the files and lines.
    pub notes: List<Note>,
    ghost all_pages: { length pages ≡ 11 },
}
