// URL patterns and tag patterns.
ghost use Rattle.std.specs.Prelude.{◌≡◌, ◌+◌, Ok, IfErr, IfOk, IsOk, MatchOption};
ghost use Rattle.px_patterns.specs.Expressions.{IsKeptOf};
ghost use Rattle.px_patterns.specs.Hosts.{host_expression_in};
ghost use Rattle.px_patterns.specs.Patterns.{NeedsNoHostSearch, NeedsNoSearch, path_matches, ports_match};

use crate::pattern_readings::{has_protocol, read_expression_parts, read_parts};
use crate::places::split_at;
use crate::{Expression, HostPart, HostPattern, KeptExpression, KeptPattern, PatternFault, Url};
use px_base::{Mem, Ports, Steps};
use std::alloc::Global;
use std::sync::ledger::Ledger;

/// A pattern for URLs: `<host><port>/<path>`, each part optional, as Privoxy's manual describes it in "Actions Files",
/// "Patterns to Match Requests".
#[derive(Drop)]
pub struct UrlPattern {
    pub host: HostPart,
    /// The ports that match; all where no port stands.
    pub ports: Option<Ports>,
    /// `^` and the path pattern; every path matches where none stands.
    pub path: Option<Expression>,
}

impl UrlPattern {
    ghost use Rattle.px_patterns.specs.Faults.{IsPatternRefusal};
    ghost use Rattle.px_patterns.specs.Hosts.{IsHostExpression};
    ghost use Rattle.px_patterns.specs.Patterns.{expression_pattern, url_matches, url_pattern};

    /// Reads a pattern. The first refusal is answered, in the order `HasProtocol`, `BadAddress`, `BadPort`, `EmptyLabel`,
    /// `BadClass`, `BadRegex`.
    pub fn read(alloc: Global, text: &str) -> Result<UrlPattern, PatternFault>
        ensures pattern { IfOk result (λ pattern. url_pattern text.now ≡ Ok pattern) }
        ensures refused { IfErr result (IsPatternRefusal (url_pattern text.now)) }
    {
        if has_protocol(text.as_bytes()) {
            return Err(PatternFault::HasProtocol);
        }
        match split_at(text, '/') {
            Some((host_part, path)) => read_parts(alloc, host_part, Some(path)),
            None => read_parts(alloc, text, None),
        }
    }

    /// Reads a pattern whose host is an expression. The text is what stands behind the word of such a line,
    /// `<expression>/<path>`, the path optional (Privoxy's manual, "The Host Pattern"). The expression goes to the first `/`,
    /// or to the end; there is no port part. Of refusals only `BadRegex` comes, first for the host and then for the path.
    pub fn read_expression(alloc: Global, text: &str) -> Result<UrlPattern, PatternFault>
        ensures pattern { IfOk result (λ pattern. expression_pattern text.now ≡ Ok pattern) }
        ensures refused { IfErr result (IsPatternRefusal (expression_pattern text.now)) }
    {
        match split_at(text, '/') {
            Some((host_part, path)) => read_expression_parts(alloc, host_part, Some(path)),
            None => read_expression_parts(alloc, text, None),
        }
    }

    /// The pattern of its host part, unless that is an expression.
    pub fn host(&self) -> Option<&HostPattern>
        ensures { MatchOption result (IsHostExpression self.now.host) (λ pattern. self.now.host ≡ HostPart.Pattern pattern.now) }
    {
        match &self.host {
            HostPart::Pattern(pattern) => Some(pattern),
            HostPart::Expression(_) => None,
        }
    }

    /// Whether host, port and path match. It adds one to the steps. Without a host expression and a path pattern, or with the
    /// path pattern `/`, it takes no memory.
    pub fn matches<L: Ledger>(
        &self,
        alloc: Global,
        url: &Url,
        steps: &mut Steps<L>,
    ) -> Result<bool, Mem>
        ensures value { IfOk result (λ yes. yes ≡ url_matches self.now url.now) }
        ensures ticks { steps.new ≡ steps.old + 1 }
        ensures no_memory { NeedsNoHostSearch self.now.host → NeedsNoSearch self.now.path → IsOk result }
    {
        self.matches_with(alloc, &mut KeptPattern::none(), url, steps)
    }

    /// The same with what is kept of its expressions, if anything is.
    #[tactic(auto, unfolding(crate::specs::Patterns::url_matches))]
    pub fn matches_with<L: Ledger>(
        &self,
        alloc: Global,
        kept: &mut KeptPattern<'_>,
        url: &Url,
        steps: &mut Steps<L>,
    ) -> Result<bool, Mem>
        requires host { IsKeptOf (host_expression_in self.now.host) kept.old.host }
        requires path { IsKeptOf self.now.path kept.old.own }
        ensures value { IfOk result (λ yes. yes ≡ url_matches self.now url.now) }
        ensures ticks { steps.new ≡ steps.old + 1 }
        ensures same { kept.new ≡ kept.old }
        ensures no_memory { NeedsNoHostSearch self.now.host → NeedsNoSearch self.now.path → IsOk result }
    {
        steps.tick();
        if !self
            .host
            .matches_with(alloc, &mut kept.host, url.host.as_bytes())?
        {
            return Ok(false);
        }
        if !allow(&self.ports, url.port) {
            return Ok(false);
        }
        path_matches_with(alloc, &self.path, &mut kept.own, url.path.as_bytes())
    }
}

/// Whether a path pattern finds something in a path; an absent one does in each.
fn path_matches(alloc: Global, pattern: &Option<Expression>, path: &[u8]) -> Result<bool, Mem>
    ensures value { IfOk result (λ yes. yes ≡ path_matches pattern.now path.now) }
    ensures no_memory { NeedsNoSearch pattern.now → IsOk result }
{
    match pattern {
        Some(expression) => expression.finds(alloc, path),
        None => Ok(true),
    }
}

/// The same with what is kept of its expression, if anything is.
#[tactic(auto, using(crate::proofs::KeptLemmas::kept_path))]
fn path_matches_with(
    alloc: Global,
    pattern: &Option<Expression>,
    kept: &mut Option<KeptExpression<'_>>,
    path: &[u8],
) -> Result<bool, Mem>
    requires { IsKeptOf pattern.now kept.old }
    ensures value { IfOk result (λ yes. yes ≡ path_matches pattern.now path.now) }
    ensures same { kept.new ≡ kept.old }
    ensures no_memory { NeedsNoSearch pattern.now → IsOk result }
{
    match kept {
        Some(kept) => kept.finds(alloc, path),
        None => path_matches(alloc, pattern, path),
    }
}

/// Whether ports allow a port; absent ones allow every port.
fn allow(ports: &Option<Ports>, port: u16) -> bool
    ensures { result ≡ ports_match ports.now port }
{
    match ports {
        Some(ports) => ports.allow(port),
        None => true,
    }
}

/// A pattern for tags: an expression without case, searched anywhere in the tag.
#[derive(Drop)]
pub struct TagPattern {
    pub expression: Expression,
}

impl TagPattern {
    ghost use Rattle.px_patterns.specs.Faults.{IsPatternRefusal};
    ghost use Rattle.px_patterns.specs.Patterns.{tag_matches, tag_pattern};

    /// Reads a pattern. Of refusals only `BadRegex` comes.
    pub fn read(alloc: Global, text: &str) -> Result<TagPattern, PatternFault>
        ensures pattern { IfOk result (λ pattern. tag_pattern text.now ≡ Ok pattern) }
        ensures refused { IfErr result (IsPatternRefusal (tag_pattern text.now)) }
    {
        let expression = Expression::read(alloc, text)?;
        Ok(TagPattern { expression })
    }

    /// Whether the expression has a match somewhere in the tag.
    pub fn matches(&self, alloc: Global, tag: &[u8]) -> Result<bool, Mem>
        ensures { IfOk result (λ yes. yes ≡ tag_matches self.now tag.now) }
    {
        self.expression.finds(alloc, tag)
    }
    /// The same with its expression and what it keeps.
    pub fn matches_with(
        &self,
        alloc: Global,
        kept: &mut KeptExpression<'_>,
        tag: &[u8],
    ) -> Result<bool, Mem>
        requires { self.now.expression ≡ kept.old }
        ensures value { IfOk result (λ yes. yes ≡ tag_matches self.now tag.now) }
        ensures same { kept.new ≡ kept.old }
    {
        kept.finds(alloc, tag)
    }
}
