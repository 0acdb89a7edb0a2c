// Expressions without case.
ghost use Rattle.std.specs.Prelude.{◌≡◌, ◌==◌, ◌↔◌, Ok, IfErr, IfOk, IsOk, IsTrue, MatchOption, codes, slice_index};
ghost use Rattle.px_patterns.specs.Expressions.{IsBuiltFrom, expression_of, finds};
ghost use Rattle.px_patterns.specs.Searches.{SearchesFor};
ghost use Rattle.px_patterns.specs.Faults.{IsPatternRefusal};

use crate::{PatternFault, SLASH};
use px_base::Mem;
use regex::bytes::Regex;
use regex::{Error, RegexBuilder};
use std::alloc::Global;
use std::marker::Model;

/// An expression without case, seen as its text.
#[derive(Drop)]
pub struct Expression {
    search: ExpressionSearch,
}

/// How an expression is searched.
#[derive(Drop)]
pub(crate) enum ExpressionSearch {
    /// `^/`, of the path pattern `/`: by a look at the first byte.
    FirstSlash,
    /// Every other one: by what the library makes of it.
    Built(Box<Regex>),
}

impl Model for Expression {
    ghost use Rattle.std.specs.Prelude.{List, ℕ};

    ghost Value = { List ℕ };

    ghost use Rattle.px_patterns.specs.Searches.{IsSearch, searched_text};

    ghost view = { λ e. searched_text e.search };

    ghost invariant = { λ e. IsSearch e.search };
}

impl Expression {
    /// Reads an expression. It is refused where the library's grammar reads none, or where it nests deeper than the
    /// library takes; a build that fails otherwise counts as want of memory.
    pub fn read(alloc: Global, text: &str) -> Result<Expression, PatternFault>
        ensures text { IfOk result (λ e. expression_of text.now ≡ Ok e) }
        ensures refused { IfErr result (IsPatternRefusal (expression_of text.now)) }
    {
        if is_first_slash(text) {
            return Ok(Expression {
                search: ExpressionSearch::FirstSlash,
            });
        }
        let regex = build(alloc, text)?;
        Ok(Expression {
            search: ExpressionSearch::Built(regex),
        })
    }

    /// Whether the expression has a match somewhere in some bytes. For `^/` it takes no memory.
    pub fn finds(&self, alloc: Global, bytes: &[u8]) -> Result<bool, Mem>
        ensures value { IfOk result (λ yes. yes ≡ finds self.now bytes.now) }
        ensures no_memory { self.now ≡ codes "^/" → IsOk result }
    {
        match self.regex() {
            Some(regex) => {
                let mut matcher = regex.matcher(alloc)?;
                Ok(matcher.is_match(bytes))
            }
            None => Ok(begins_with_slash(bytes)),
        }
    }

    /// What the library made of it, unless it is `^/`.
    pub(crate) fn regex(&self) -> Option<&Regex>
        ensures { MatchOption result (self.now ≡ codes "^/") (λ regex. SearchesFor self.now regex.now) }
    {
        match &self.search {
            ExpressionSearch::FirstSlash => None,
            ExpressionSearch::Built(regex) => Some(regex),
        }
    }

    /// The expression's text.
    pub(crate) fn text(&self) -> &str
        ensures { result.now ≡ self.now }
    {
        match &self.search {
            ExpressionSearch::FirstSlash => "^/",
            ExpressionSearch::Built(regex) => regex.as_str(),
        }
    }
}

/// Whether a text is the expression of the path pattern `/`.
fn is_first_slash(text: &str) -> bool
    ensures { IsTrue result ↔ (text.now ≡ codes "^/") }
{
    text == "^/"
}

/// Whether a slash stands first.
fn begins_with_slash(bytes: &[u8]) -> bool
    ensures { result ≡ (slice_index bytes.now 0 == SLASH) }
{
    !bytes.is_empty() && bytes[0] == SLASH
}

/// What the library makes of a text, without case. It stays where it was made.
pub(crate) fn build(alloc: Global, text: &str) -> Result<Box<Regex>, PatternFault>
    ensures built { IfOk result (λ regex. IsBuiltFrom text.now regex.value) }
    ensures refused { IfErr result (IsPatternRefusal (expression_of text.now)) }
{
    match RegexBuilder::new(text)
        .case_insensitive(true)
        .build_bytes(alloc)
    {
        Ok(regex) => Ok(Box::new(alloc, regex)?),
        Err(Error::Syntax(_)) => Err(PatternFault::BadRegex),
        Err(_) => Err(PatternFault::Mem),
    }
}
