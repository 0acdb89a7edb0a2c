// Expressions that keep what searches for them.
ghost use Rattle.std.specs.Prelude.{◌≡◌, IfOk, IsOk, None, codes};
ghost use Rattle.regex.specs.Bytes.{matcher_pattern, regex_pattern};
ghost use Rattle.px_patterns.specs.Expressions.{finds};

use crate::Expression;
use px_base::Mem;
use regex::bytes::{Matcher, Regex};
use std::alloc::Global;
use std::marker::Model;

/// An expression that is lent, seen as its text. What searches for it is made at the first search and kept, so that a later
/// search takes no memory. It is kept by one thread at a time.
#[derive(Drop)]
pub struct KeptExpression<'r> {
    expression: &'r Expression,
    matcher: Option<Box<Matcher<'r>>>,
}

impl<'r> Model for KeptExpression<'r> {
    ghost use Rattle.std.specs.Prelude.{List, ℕ, IfSome};
    ghost use Rattle.regex.specs.Bytes.{matcher_pattern};
    ghost use Rattle.px_patterns.specs.Searches.{FindsAs};

    ghost Value = { List ℕ };

    ghost view = { λ k. k.expression.now };

    ghost invariant = { λ k. IfSome k.matcher (λ m. FindsAs k.expression.now (matcher_pattern m.value)) };
}

impl<'r> KeptExpression<'r> {
    /// An expression that hasn't been searched for.
    pub fn new(expression: &'r Expression) -> KeptExpression<'r>
        ensures { result ≡ expression.now }
    {
        KeptExpression {
            expression,
            matcher: None,
        }
    }

    /// Whether the expression has a match somewhere in some bytes. After want of memory it may be asked again.
    pub fn finds(&mut self, alloc: Global, bytes: &[u8]) -> Result<bool, Mem>
        ensures value { IfOk result (λ yes. yes ≡ finds self.old bytes.now) }
        ensures same { self.new ≡ self.old }
        ensures no_memory { self.old ≡ codes "^/" → IsOk result }
    {
        if let Some(matcher) = &mut self.matcher {
            return Ok(matcher.is_match(bytes));
        }
        let expression = self.expression;
        let Some(regex) = expression.regex() else {
            return expression.finds(alloc, bytes);
        };
        let mut matcher = boxed_matcher(alloc, regex)?;
        let found = matcher.is_match(bytes);
        self.matcher = Some(matcher);
        Ok(found)
    }
}

/// What is kept of the expressions of a pattern from search to search: that of a host part, and that of a path pattern or of
/// a tag pattern.
#[derive(Drop)]
pub struct KeptPattern<'r> {
    pub host: Option<KeptExpression<'r>>,
    pub own: Option<KeptExpression<'r>>,
}

impl<'r> KeptPattern<'r> {
    /// Nothing is kept.
    pub fn none() -> KeptPattern<'r>
        ensures host { result.host ≡ None }
        ensures own { result.own ≡ None }
    {
        KeptPattern {
            host: None,
            own: None,
        }
    }
}

/// What searches for what the library made.
fn boxed_matcher<'r>(alloc: Global, regex: &'r Regex) -> Result<Box<Matcher<'r>>, Mem>
    ensures { IfOk result (λ matcher. matcher_pattern matcher.value ≡ regex_pattern regex.now) }
{
    let matcher = regex.matcher(alloc)?;
    Ok(Box::new(alloc, matcher)?)
}
