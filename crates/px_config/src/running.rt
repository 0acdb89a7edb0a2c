// A configuration that is used, with what its patterns and filters keep from search to search.
ghost use Rattle.std.specs.Prelude.{◌≡◌, IfOk};

use crate::configs::Config;
use px_base::Mem;
use px_filter_files::WarmFilters;
use px_merge::WarmSections;
use std::alloc::Global;
use std::marker::Model;

/// A configuration that is used, seen as that configuration. What searches is made at the first search, and kept. One thread has
/// it at a time.
#[derive(Drop)]
pub struct Running<'c> {
    pub config: &'c Config,
    pub sections: WarmSections<'c>,
    pub filters: WarmFilters<'c>,
}

impl<'c> Model for Running<'c> {
    ghost use Rattle.std.specs.Prelude.{◌≡◌};
    ghost use Rattle.px_config.specs.declared.configs.Config.{Config};

    ghost Value = { Config };

    ghost view = { λ r. r.config.now };

    ghost invariant = { λ r. (r.sections ≡ r.config.now.sections) × (r.filters ≡ r.config.now.filters) };
}

impl<'c> Running<'c> {
    /// The configuration, with nothing kept yet.
    pub fn new(alloc: Global, config: &'c Config) -> Result<Running<'c>, Mem>
        ensures { IfOk result (λ running. running ≡ config.now) }
    {
        Ok(Running {
            config,
            sections: config.sections.warm(alloc)?,
            filters: config.filters.warm(alloc)?,
        })
    }

    /// The configuration, which may be kept while searches go on.
    pub fn config(&self) -> &'c Config
        ensures { result.now ≡ self.now }
    {
        self.config
    }
}
