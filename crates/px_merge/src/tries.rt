// Patterns that are tried.
ghost use Rattle.std.specs.Prelude.{◌≡◌, ◌+◌, ◌≤◌, ℕ, List, IfOk, IsTrue, Some, false, if◌then◌else◌, not};
ghost use Rattle.px_patterns.specs.Expressions.{IsKeptOf};
ghost use Rattle.px_patterns.specs.Hosts.{host_expression_in, host_part_matches};
ghost use Rattle.px_patterns.specs.Patterns.{tag_matches, url_matches};
ghost use Rattle.px_merge.specs.Candidates.{cost, part_is_candidate};
ghost use Rattle.px_merge.specs.Expressions.{IsKeptFor};
ghost use Rattle.px_merge.specs.Merging.{is_for_url, matches_some};
ghost use Rattle.px_merge.specs.Selections.{is_for_test};

use crate::sides::{Side, TagTest, UrlTest};
use px_action_files::Pattern;
use px_base::{Mem, Steps, Text};
use px_patterns::{KeptExpression, KeptPattern, TagPattern, Url, UrlPattern};
use std::alloc::Global;
use std::sync::ledger::Ledger;

/// Whether a tag pattern matches a tag. What is kept of its expression, if anything is, searches.
fn matches_tag(
    alloc: Global,
    pattern: &TagPattern,
    kept: &mut Option<KeptExpression<'_>>,
    tag: &[u8],
) -> Result<bool, Mem>
    requires { IsKeptOf (Some pattern.now.expression) kept.old }
    ensures value { IfOk result (λ yes. yes ≡ tag_matches pattern.now tag.now) }
    ensures same { kept.new ≡ kept.old }
{
    match kept {
        Some(kept) => pattern.matches_with(alloc, kept, tag),
        None => pattern.matches(alloc, tag),
    }
}

/// Whether a tag pattern matches one of some tags.
fn matches_some(
    alloc: Global,
    pattern: &TagPattern,
    kept: &mut Option<KeptExpression<'_>>,
    tags: &[Text],
) -> Result<bool, Mem>
    requires { IsKeptOf (Some pattern.now.expression) kept.old }
    ensures value { IfOk result (λ yes. yes ≡ matches_some pattern.now tags.now) }
    ensures same { kept.new ≡ kept.old }
{
    let mut rest = tags;
    'tags: while let Some((tag, others)) = rest.split_first() {
        if matches_tag(alloc, pattern, kept, tag.as_bytes())? {
            return Ok(true);
        }
        rest = others;
    }
    Ok(false)
}

/// Whether a tag pattern matches none of some tags.
fn matches_none(
    alloc: Global,
    pattern: &TagPattern,
    kept: &mut Option<KeptExpression<'_>>,
    tags: &[Text],
) -> Result<bool, Mem>
    requires { IsKeptOf (Some pattern.now.expression) kept.old }
    ensures value { IfOk result (λ yes. yes ≡ not (matches_some pattern.now tags.now)) }
    ensures same { kept.new ≡ kept.old }
{
    Ok(!matches_some(alloc, pattern, kept, tags)?)
}

/// Whether a pattern passes a test of tags.
pub fn try_tags(
    alloc: Global,
    pattern: &Pattern,
    kept: &mut KeptPattern<'_>,
    test: TagTest<'_>,
) -> Result<bool, Mem>
    requires { IsKeptFor pattern.now kept.old }
    ensures value { IfOk result (λ yes. yes ≡ is_for_test test.entry pattern.now) }
    ensures same { kept.new ≡ kept.old }
{
    match (pattern, test) {
        (Pattern::Tag(pattern), TagTest::Present(tag)) => {
            matches_tag(alloc, pattern, &mut kept.own, tag)
        }
        (Pattern::NoRequestTag(pattern), TagTest::Absent(Side::Request, tags)) => {
            matches_none(alloc, pattern, &mut kept.own, tags)
        }
        (Pattern::NoResponseTag(pattern), TagTest::Absent(Side::Response, tags)) => {
            matches_none(alloc, pattern, &mut kept.own, tags)
        }
        (Pattern::Tag(_), TagTest::Absent(_, _)) => Ok(false),
        (Pattern::NoRequestTag(_), TagTest::Present(_)) => Ok(false),
        (Pattern::NoRequestTag(_), TagTest::Absent(Side::Response, _)) => Ok(false),
        (Pattern::NoResponseTag(_), TagTest::Present(_)) => Ok(false),
        (Pattern::NoResponseTag(_), TagTest::Absent(Side::Request, _)) => Ok(false),
        (Pattern::Url(_), _) => Ok(false),
        (Pattern::ClientTag(_), _) => Ok(false),
    }
}

/// Whether the host part of a URL pattern may match a host: an expression always may, and other host parts where they match.
/// Where it may the pattern is a candidate for the host.
fn may_fit_host(pattern: &UrlPattern, host: &[u8]) -> bool
    ensures other { result ≡ false → host_part_matches pattern.now.host host.now ≡ false }
    ensures candidate { IsTrue result → IsTrue (part_is_candidate pattern.now.host host.now) }
{
    match pattern.host() {
        Some(own) => own.matches(host),
        None => true,
    }
}

/// Whether a pattern may match a URL or tags: not where the host part of a URL pattern can't, so that its expressions aren't
/// looked up.
#[tactic(auto, using(crate::proofs::CandidateLemmas::no_host))]
pub fn may_fit(pattern: &Pattern, url: &Url) -> bool
    ensures { result ≡ false → (tags : List (List ℕ)) → is_for_url url.now tags pattern.now ≡ false }
{
    match pattern {
        Pattern::Url(pattern) => may_fit_host(pattern, url.host.as_bytes()),
        Pattern::ClientTag(_) => true,
        Pattern::Tag(_) => false,
        Pattern::NoRequestTag(_) => false,
        Pattern::NoResponseTag(_) => false,
    }
}

/// Whether a URL pattern matches a URL. A step is taken only where the pattern is a candidate.
#[tactic(auto, using(crate::proofs::CandidateLemmas::no_host, crate::proofs::CandidateLemmas::one_step))]
fn matches_url<L: Ledger>(
    alloc: Global,
    pattern: &UrlPattern,
    kept: &mut KeptPattern<'_>,
    url: &Url,
    steps: &mut Steps<L>,
) -> Result<bool, Mem>
    requires host { IsKeptOf (host_expression_in pattern.now.host) kept.old.host }
    requires path { IsKeptOf pattern.now.path kept.old.own }
    ensures value { IfOk result (λ yes. yes ≡ url_matches pattern.now url.now) }
    ensures steps { steps.new ≤ steps.old + (if part_is_candidate pattern.now.host url.now.host then 1 else 0) }
    ensures same { kept.new ≡ kept.old }
{
    if !may_fit_host(pattern, url.host.as_bytes()) {
        return Ok(false);
    }
    pattern.matches_with(alloc, kept, url, steps)
}

/// Whether a pattern matches a URL or one of a client's tags.
pub fn try_url<L: Ledger>(
    alloc: Global,
    pattern: &Pattern,
    kept: &mut KeptPattern<'_>,
    test: &UrlTest<'_>,
    steps: &mut Steps<L>,
) -> Result<bool, Mem>
    requires { IsKeptFor pattern.now kept.old }
    ensures value { IfOk result (λ yes. yes ≡ is_for_url test.now.url.now test.now.tags.now pattern.now) }
    ensures steps { steps.new ≤ steps.old + cost test.now.url.now.host pattern.now }
    ensures same { kept.new ≡ kept.old }
{
    match pattern {
        Pattern::Url(pattern) => matches_url(alloc, pattern, kept, test.url, steps),
        Pattern::ClientTag(pattern) => matches_some(alloc, pattern, &mut kept.own, test.tags),
        Pattern::Tag(_) => Ok(false),
        Pattern::NoRequestTag(_) => Ok(false),
        Pattern::NoResponseTag(_) => Ok(false),
    }
}
