// Expressions that patterns search for.
ghost use Rattle.std.specs.Prelude.{◌≡◌, ◌++◌, IfOk, IfSome, IsTrue, OnOk, Some, option_copied, slice_get};
ghost use Rattle.px_merge.specs.Expressions.{expression_in, expression_places, has_expression, host_in, kept_at, places_in};
ghost use Rattle.px_merge.specs.Indexes.{pattern_at};

use crate::places::{PatternPlace, Placed};
use crate::selections::section_at;
use px_action_files::Pattern;
use px_base::Mem;
use px_patterns::{Expression, KeptExpression, KeptPattern};
use std::alloc::Global;

/// The pattern at a place, if there is one.
pub fn pattern_at(sections: &[Placed], place: PatternPlace) -> Option<&Pattern>
    ensures { option_copied result ≡ pattern_at sections.now place }
{
    match section_at(sections, place.section) {
        Some(placed) => nth(placed.section.patterns.as_slice(), place.pattern),
        None => None,
    }
}

/// The pattern with a number, if there is one.
fn nth(patterns: &[Pattern], number: usize) -> Option<&Pattern>
    ensures { option_copied result ≡ slice_get patterns.now number }
{
    if number < patterns.len() {
        Some(&patterns[number])
    } else {
        None
    }
}

/// The expression that a pattern searches in hosts, if it has one.
fn host_in(pattern: &Pattern) -> Option<&Expression>
    ensures { option_copied result ≡ host_in pattern.now }
{
    match pattern {
        Pattern::Url(pattern) => pattern.host.expression(),
        Pattern::Tag(_) => None,
        Pattern::NoRequestTag(_) => None,
        Pattern::NoResponseTag(_) => None,
        Pattern::ClientTag(_) => None,
    }
}

/// The expression that a pattern searches in paths or in tags, if it has one.
fn expression_in(pattern: &Pattern) -> Option<&Expression>
    ensures { option_copied result ≡ expression_in pattern.now }
{
    match pattern {
        Pattern::Url(pattern) => pattern.path.as_ref(),
        Pattern::Tag(pattern) => Some(&pattern.expression),
        Pattern::NoRequestTag(pattern) => Some(&pattern.expression),
        Pattern::NoResponseTag(pattern) => Some(&pattern.expression),
        Pattern::ClientTag(pattern) => Some(&pattern.expression),
    }
}

/// What is kept of an expression, if there is one, that hasn't been searched for.
fn keep(expression: Option<&Expression>) -> Option<KeptExpression<'_>>
    ensures { result ≡ option_copied expression.entry }
{
    match expression {
        Some(expression) => Some(KeptExpression::new(expression)),
        None => None,
    }
}

/// What is kept of the pattern at a place, if there is one, that hasn't searched.
pub fn kept_at(sections: &[Placed], place: PatternPlace) -> KeptPattern<'_>
    ensures { result ≡ kept_at sections.now place }
{
    match pattern_at(sections, place) {
        Some(pattern) => KeptPattern {
            host: keep(host_in(pattern)),
            own: keep(expression_in(pattern)),
        },
        None => KeptPattern::none(),
    }
}

/// Whether a pattern has an expression.
fn has_expression(pattern: &Pattern) -> bool
    ensures { result ≡ has_expression pattern.now }
{
    host_in(pattern).is_some() || expression_in(pattern).is_some()
}

/// Adds the places of those patterns of the section with a number that have an expression.
fn add_places(
    number: usize,
    patterns: &[Pattern],
    places: &mut Vec<PatternPlace>,
) -> Result<(), Mem>
    ensures { OnOk result (places.new.items ≡ places.old.items ++ places_in number 0 patterns.now) }
{
    for (at, shown) in patterns.iter().enumerate() {
        if has_expression(shown) {
            places.push(PatternPlace {
                section: number,
                pattern: at,
            })?;
        }
    }
    Ok(())
}

/// The places of all patterns with an expression, in ascending order.
pub fn expression_places(alloc: Global, sections: &[Placed]) -> Result<Vec<PatternPlace>, Mem>
    ensures { IfOk result (λ places. places.items ≡ expression_places 0 sections.now) }
{
    let mut places = Vec::new(alloc);
    for (number, shown) in sections.iter().enumerate() {
        add_places(number, shown.section.patterns.as_slice(), &mut places)?;
    }
    Ok(places)
}

/// The number of a pattern's place among places in ascending order, if it is there. That of a pattern without an expression isn't
/// looked for.
pub fn number_at(places: &[PatternPlace], place: PatternPlace, pattern: &Pattern) -> Option<usize>
    ensures { IfSome result (λ number. slice_get places.now number ≡ Some place) }
{
    if !has_expression(pattern) {
        return None;
    }
    number_of(places, place)
}

/// The number of a place among places in ascending order, if it is there.
fn number_of(places: &[PatternPlace], place: PatternPlace) -> Option<usize>
    ensures { IfSome result (λ number. slice_get places.now number ≡ Some place) }
{
    let number = first_from(places, place);
    if number < places.len() && is_same(places[number], place) {
        return Some(number);
    }
    None
}

fn is_same(place: PatternPlace, other: PatternPlace) -> bool
    ensures { IsTrue result → place ≡ other }
{
    place.section == other.section && place.pattern == other.pattern
}

fn is_before(place: PatternPlace, other: PatternPlace) -> bool {
    place.section < other.section
        || (place.section == other.section && place.pattern < other.pattern)
}

/// How many of some places in ascending order stand before a place.
fn first_from(places: &[PatternPlace], place: PatternPlace) -> usize {
    let mut from = 0;
    let mut to = places.len();
    'places: while from < to {
        let middle = from + (to - from) / 2;
        if is_before(places[middle], place) {
            from = middle + 1;
        } else {
            to = middle;
        }
    }
    from
}
