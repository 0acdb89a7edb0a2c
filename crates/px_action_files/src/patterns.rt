// The patterns of sections.
ghost use Rattle.std.specs.Prelude.{◌≡◌, [], Ok, Some, None, IfErr, IfOk, MatchOption, nat_eq, true, false, length, drop};
ghost use Rattle.std.specs.List.{starts_with};
ghost use Rattle.px_patterns.specs.Faults.{IsPatternRefusal, pattern_fault_number};
ghost use Rattle.px_patterns.specs.Patterns.{tag_pattern};
ghost use Rattle.px_action_files.specs.Faults.{IsReported, at_line};
ghost use Rattle.px_action_files.specs.Patterns.{tags_word, spoken_tags, pattern_on, pattern_by, line_pattern, patterns_of, url_pattern_of};
ghost use Rattle.px_base.specs.Results.{result_map};

use crate::faults::FileFault;
use px_base::{List, as_text};
use px_patterns::{PatternFault, TagPattern, UrlPattern};
use px_text::Line;
use std::alloc::Global;

const TAG: &str = "TAG:";

const NO_REQUEST_TAG: &str = "NO-REQUEST-TAG:";

const NO_RESPONSE_TAG: &str = "NO-RESPONSE-TAG:";

const CLIENT_TAG: &str = "CLIENT-TAG:";

const HOST_EXPRESSION: &str = "PCRE-HOST-PATTERN:";

/// A pattern that switches a section on.
#[derive(Drop)]
pub enum Pattern {
    /// For the URLs that match.
    Url(UrlPattern),
    /// Where a tag matches.
    Tag(TagPattern),
    /// Where no tag of the request matches.
    NoRequestTag(TagPattern),
    /// Where no tag of the response matches.
    NoResponseTag(TagPattern),
    /// Where a tag of the client matches.
    ClientTag(TagPattern),
}

/// The tags of which a tag pattern speaks.
#[derive(Clone, Copy, Debug, PartialEq, Eq)]
pub enum SpokenTags {
    Any,
    NoneOfRequest,
    NoneOfResponse,
    OfClient,
}

impl SpokenTags {
    fn pattern(self, pattern: TagPattern) -> Pattern
        ensures { result ≡ pattern_on self pattern }
    {
        match self {
            SpokenTags::Any => Pattern::Tag(pattern),
            SpokenTags::NoneOfRequest => Pattern::NoRequestTag(pattern),
            SpokenTags::NoneOfResponse => Pattern::NoResponseTag(pattern),
            SpokenTags::OfClient => Pattern::ClientTag(pattern),
        }
    }
}

/// What stands behind a front, if a text begins with it.
fn behind<'a>(text: &'a str, front: &str) -> Option<&'a str>
    ensures { MatchOption result (starts_with nat_eq text.now front.now ≡ false) (λ rest. (starts_with nat_eq text.now front.now ≡ true) × (rest.now ≡ drop (length front.now) text.now)) }
{
    text.strip_prefix(front)
}

/// The tags of which a text speaks and what stands behind their word, if it begins with one of the words.
#[tactic(auto, unfolding(crate::specs::Patterns::spoken_tags))]
fn split_tags(text: &str) -> Option<(SpokenTags, &str)>
    ensures { MatchOption result (spoken_tags text.now ≡ None) (λ t. (spoken_tags text.now ≡ Some t.0) × (t.1.now ≡ drop (length (tags_word t.0)) text.now)) }
{
    if let Some(tag) = behind(text, TAG) {
        return Some((SpokenTags::Any, tag));
    }
    if let Some(tag) = behind(text, NO_REQUEST_TAG) {
        return Some((SpokenTags::NoneOfRequest, tag));
    }
    if let Some(tag) = behind(text, NO_RESPONSE_TAG) {
        return Some((SpokenTags::NoneOfResponse, tag));
    }
    match behind(text, CLIENT_TAG) {
        Some(tag) => Some((SpokenTags::OfClient, tag)),
        None => None,
    }
}

#[tactic(auto, using(crate::proofs::PatternLemmas::refusal_map))]
fn tag_pattern(alloc: Global, which: SpokenTags, tag: &str) -> Result<Pattern, PatternFault>
    ensures pattern { IfOk result (λ p. result_map (pattern_on which) (tag_pattern tag.now) ≡ Ok p) }
    ensures refused { IfErr result (IsPatternRefusal (result_map (pattern_on which) (tag_pattern tag.now))) }
{
    match TagPattern::read(alloc, tag) {
        Ok(pattern) => Ok(which.pattern(pattern)),
        Err(fault) => Err(fault),
    }
}

#[tactic(auto, using(crate::proofs::PatternLemmas::refusal_map))]
fn url_pattern(alloc: Global, text: &str) -> Result<Pattern, PatternFault>
    ensures pattern { IfOk result (λ p. pattern_by None text.now ≡ Ok p) }
    ensures refused { IfErr result (IsPatternRefusal (pattern_by None text.now)) }
{
    match read_url(alloc, text) {
        Ok(pattern) => Ok(Pattern::Url(pattern)),
        Err(fault) => Err(fault),
    }
}

/// The URL pattern of a text: `PCRE-HOST-PATTERN:`, with case, begins one whose host is an expression.
#[tactic(auto, using(crate::proofs::PatternLemmas::refusal_same))]
fn read_url(alloc: Global, text: &str) -> Result<UrlPattern, PatternFault>
    ensures pattern { IfOk result (λ p. url_pattern_of text.now ≡ Ok p) }
    ensures refused { IfErr result (IsPatternRefusal (url_pattern_of text.now)) }
{
    match behind(text, HOST_EXPRESSION) {
        Some(expression) => UrlPattern::read_expression(alloc, expression),
        None => UrlPattern::read(alloc, text),
    }
}

/// The pattern of a text: `PCRE-HOST-PATTERN:` begins a URL pattern with a host expression, `TAG:`, `NO-REQUEST-TAG:`,
/// `NO-RESPONSE-TAG:` and `CLIENT-TAG:` begin tag patterns, all else is a URL pattern.
#[tactic(auto, using(crate::proofs::PatternLemmas::refusal_same))]
fn text_pattern(alloc: Global, text: &str) -> Result<Pattern, PatternFault>
    ensures pattern { IfOk result (λ p. pattern_by (spoken_tags text.now) text.now ≡ Ok p) }
    ensures refused { IfErr result (IsPatternRefusal (pattern_by (spoken_tags text.now) text.now)) }
{
    match split_tags(text) {
        Some((which, tag)) => tag_pattern(alloc, which, tag),
        None => url_pattern(alloc, text),
    }
}

/// The pattern of a line. Bytes that aren't UTF-8 are no expression.
#[tactic(auto, using(crate::proofs::PatternLemmas::refusal_same), unfolding(crate::specs::Patterns::line_pattern))]
fn line_pattern(alloc: Global, bytes: &[u8]) -> Result<Pattern, PatternFault>
    ensures pattern { IfOk result (λ p. line_pattern bytes.now ≡ Ok p) }
    ensures refused { IfErr result (IsPatternRefusal (line_pattern bytes.now)) }
{
    match as_text(bytes) {
        Some(text) => text_pattern(alloc, text),
        None => Err(PatternFault::BadRegex),
    }
}

#[tactic(auto, using(crate::proofs::PatternLemmas::refusal_reported))]
fn pattern_at(alloc: Global, line: &Line) -> Result<Pattern, FileFault>
    ensures pattern { IfOk result (λ p. at_line line.now.number pattern_fault_number (line_pattern line.now.text) ≡ Ok p) }
    ensures refused { IfErr result (IsReported (at_line line.now.number pattern_fault_number (line_pattern line.now.text))) }
{
    match line_pattern(alloc, line.text.as_bytes()) {
        Ok(pattern) => Ok(pattern),
        Err(fault) => Err(FileFault::of_pattern(line.number, fault)),
    }
}

/// The patterns of lines, or the first refusal.
#[tactic(auto, using(crate::proofs::ResultLemmas::reported_then, crate::proofs::ResultLemmas::reported_same), unfolding(crate::specs::Patterns::patterns_of))]
pub(crate) fn read_patterns(alloc: Global, lines: &[Line]) -> Result<List<Pattern>, FileFault>
    ensures patterns { IfOk result (λ ps. patterns_of lines.now [] ≡ Ok ps) }
    ensures refused { IfErr result (IsReported (patterns_of lines.now [])) }
{
    let mut patterns = List::with_capacity(alloc, lines.len())?;
    let mut rest = lines;
    'lines: while let Some((line, others)) = rest.split_first() {
        let pattern = pattern_at(alloc, line)?;
        patterns.add(pattern)?;
        rest = others;
    }
    Ok(patterns)
}
