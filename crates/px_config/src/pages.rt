// The template of a page.
ghost use Rattle.std.specs.Prelude.{◌≡◌, Some, slice_get};
ghost use Rattle.px_templates.specs.Pages.{page_rank};

use crate::configs::Config;
use px_templates::{Page, Template};

impl Config {
    /// The template of a page.
    pub fn page(&self, page: Page) -> &Template
        ensures { slice_get self.now.pages (page_rank page) ≡ Some result.now }
    {
        &self.pages.as_slice()[page.rank()]
    }
}
