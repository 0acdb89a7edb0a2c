// An expression that is built, with the parts of its substitute.
ghost use Rattle.std.specs.Prelude.{◌≡◌, ◌<◌, false, true, None, unwrap_or, IfOk, IfSome, MatchOption};
ghost use Rattle.px_subst.specs.Expressions.{job_expression};
ghost use Rattle.px_subst.specs.Jobs.{unchanged};
ghost use Rattle.px_subst.specs.Substitutes.{items_by_flag};
ghost use Rattle.px_subst.specs.Replacers.{SpellsJob, IsSearchOf, replaces};

use crate::expressions::build;
use crate::flags::Flags;
use crate::items::{Part, read_parts};
use crate::outcomes::JobOutcome;
use crate::searches::JobSearch;
use px_base::Mem;
use regex::bytes::Regex;
use std::alloc::Global;
use std::marker::Model;

/// What a job does once its words are known, seen as its pattern, its items and its flags.
#[derive(Drop)]
pub(crate) struct Replacer {
    expression: Regex,
    parts: Vec<Part>,
    flags: Flags,
}

impl Model for Replacer {
    ghost use Rattle.regex.specs.Bytes.{regex_pattern, regex_source};
    ghost use Rattle.px_subst.specs.Expressions.{IsJobBuiltFrom};
    ghost use Rattle.px_subst.specs.Replacers.{Built, items_in_all};

    ghost Value = { Built };

    ghost view = { λ r. record {
      pattern = regex_source r.expression;
      items = items_in_all r.parts.items;
      flags = r.flags;
    } };

    ghost invariant = { λ r. IsJobBuiltFrom r.flags (regex_source r.expression) (regex_pattern r.expression) };
}

impl Replacer {
    /// The expression of a pattern with the parts of a substitute, or None where the expression isn't read.
    pub(crate) fn new(
        alloc: Global,
        flags: Flags,
        pattern: &[u8],
        substitute: &[u8],
    ) -> Result<Option<Replacer>, Mem>
        ensures { IfOk result (λ made. MatchOption made (job_expression flags pattern.now ≡ None)
            (SpellsJob pattern.now (items_by_flag flags.plain substitute.now) flags)) }
    {
        match build(alloc, flags, pattern)? {
            Some(expression) => {
                let parts = read_parts(alloc, flags.plain, substitute)?;
                Ok(Some(Replacer {
                    expression,
                    parts,
                    flags,
                }))
            }
            None => Ok(None),
        }
    }

    /// What searches for its expression.
    pub(crate) fn search(&self, alloc: Global) -> Result<JobSearch<'_>, Mem>
        ensures { IfOk result (IsSearchOf self.now) }
    {
        JobSearch::new(alloc, &self.expression)
    }

    /// Whether it matches somewhere in a text.
    pub(crate) fn finds(&self, search: &mut JobSearch<'_>, text: &[u8]) -> bool
        requires { IsSearchOf self.now search.old }
        ensures miss { result ≡ false → replaces self.now text.now ≡ unchanged text.now }
        ensures hit { result ≡ true → 0 < (replaces self.now text.now).hits }
        ensures same { IsSearchOf self.now search.new }
    {
        search.finds(text)
    }

    /// What it makes of a text, or None where nothing matches.
    pub(crate) fn run(
        &self,
        alloc: Global,
        search: &mut JobSearch<'_>,
        text: &[u8],
    ) -> Result<Option<JobOutcome>, Mem>
        requires { IsSearchOf self.now search.old }
        ensures value { IfOk result (λ found. unwrap_or found (unchanged text.now) ≡ replaces self.now text.now) }
        ensures hit { IfOk result (λ found. IfSome found (λ outcome. 0 < outcome.hits)) }
        ensures same { IsSearchOf self.now search.new }
    {
        let limit = if self.flags.every { u64::MAX } else { 1 };
        Ok(search.replace_matches(alloc, self.parts.as_slice(), limit, text)?)
    }
}
