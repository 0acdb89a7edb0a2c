// Lists of sections that are found without a walk over all of them.
ghost use Rattle.std.specs.Prelude.{◌≡◌, IfOk, slice_get};
ghost use Rattle.std.specs.List.{list_any};
ghost use Rattle.px_merge.specs.Selections.{Selects, has_some, is_of_purpose};

use crate::places::Placed;
use crate::selections::section_at;
use crate::sides::Side;
use px_action_files::Pattern;
use px_base::Mem;
use std::alloc::Global;

/// What a list of sections is for.
#[derive(Clone, Copy)]
pub enum Purpose {
    /// Those with TAG patterns.
    Tag,
    /// Those with NO-REQUEST-TAG patterns, or for the response with NO-RESPONSE-TAG patterns.
    Absent(Side),
}

/// Whether a pattern is one of those that a list is for.
fn is_of(pattern: &Pattern, purpose: Purpose) -> bool
    ensures { result ≡ is_of_purpose purpose pattern.now }
{
    match (pattern, purpose) {
        (Pattern::Tag(_), Purpose::Tag) => true,
        (Pattern::NoRequestTag(_), Purpose::Absent(Side::Request)) => true,
        (Pattern::NoResponseTag(_), Purpose::Absent(Side::Response)) => true,
        (Pattern::Tag(_), Purpose::Absent(_)) => false,
        (Pattern::NoRequestTag(_), Purpose::Absent(Side::Response)) => false,
        (Pattern::NoRequestTag(_), Purpose::Tag) => false,
        (Pattern::NoResponseTag(_), Purpose::Absent(Side::Request)) => false,
        (Pattern::NoResponseTag(_), Purpose::Tag) => false,
        (Pattern::Url(_), _) => false,
        (Pattern::ClientTag(_), _) => false,
    }
}

/// Whether one of some patterns is one of those that a list is for.
fn has_of(patterns: &[Pattern], purpose: Purpose) -> bool
    ensures { result ≡ list_any (is_of_purpose purpose) patterns.now }
{
    let mut rest = patterns;
    'patterns: while let Some((pattern, others)) = rest.split_first() {
        if is_of(pattern, purpose) {
            return true;
        }
        rest = others;
    }
    false
}

/// Whether the section with a number, if there is one, is one that a list is for.
fn is_listed(sections: &[Placed], number: usize, purpose: Purpose) -> bool
    ensures { result ≡ has_some (is_of_purpose purpose) (slice_get sections.now number) }
{
    match section_at(sections, number) {
        Some(placed) => has_of(placed.section.patterns.as_slice(), purpose),
        None => false,
    }
}

/// The numbers of the sections that a list is for.
pub fn numbers_of(alloc: Global, sections: &[Placed], purpose: Purpose) -> Result<Vec<usize>, Mem>
    ensures { IfOk result (λ numbers. Selects (is_of_purpose purpose) sections.now numbers.items) }
{
    let mut numbers = Vec::new(alloc);
    for at in 0..sections.len() {
        if is_listed(sections, at, purpose) {
            numbers.push(at)?;
        }
    }
    Ok(numbers)
}
