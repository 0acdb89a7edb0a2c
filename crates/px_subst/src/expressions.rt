// The expression of a pattern.
ghost use Rattle.std.specs.Prelude.{◌≡◌, None, IfOk, MatchOption};
ghost use Rattle.px_subst.specs.Expressions.{job_expression, IsJobBuilt};

use crate::flags::Flags;
use px_base::{Mem, as_text};
use regex::bytes::Regex;
use regex::{Error, RegexBuilder};
use std::alloc::Global;

/// The expression of a pattern, or None where the library reads none or it nests too deep. The library's other refusals
/// count as want of memory.
pub(crate) fn build(alloc: Global, flags: Flags, pattern: &[u8]) -> Result<Option<Regex>, Mem>
    ensures { IfOk result (λ found. MatchOption found (job_expression flags pattern.now ≡ None)
        (IsJobBuilt flags pattern.now)) }
{
    match as_text(pattern) {
        Some(source) => build_text(alloc, flags, source),
        None => Ok(None),
    }
}

fn build_text(alloc: Global, flags: Flags, source: &str) -> Result<Option<Regex>, Mem>
    ensures { IfOk result (λ found. MatchOption found (job_expression flags source.now ≡ None)
        (IsJobBuilt flags source.now)) }
{
    match RegexBuilder::new(source)
        .case_insensitive(flags.any_case)
        .multi_line(flags.multi_line)
        .dot_matches_new_line(flags.dot_all)
        .swap_greed(flags.ungreedy)
        .ignore_whitespace(flags.spaced)
        .build_bytes(alloc)
    {
        Ok(regex) => Ok(Some(regex)),
        Err(Error::Syntax(_)) => Ok(None),
        Err(_) => Err(Mem),
    }
}
