// Expressions that are asked together.
ghost use Rattle.std.specs.Prelude.{◌≡◌, ◌++◌, ◌∷◌, [], IfOk, OnErr, OnOk, is_some};
ghost use Rattle.std.specs.List.{list_any};
ghost use Rattle.regex_hir.specs.Find.{find};
ghost use Rattle.regex.specs.Bytes.{set_matcher_patterns};
ghost use Rattle.px_patterns.specs.Expressions.{IsBuiltFrom, finds};
ghost use Rattle.px_patterns.specs.Searches.{AreFoundAs};

use crate::Expression;
use crate::expressions::build;
use px_base::Mem;
use regex::bytes::{Regex, RegexSet, SetMatcher};
use std::alloc::Global;
use std::marker::Model;

/// Gathers expressions, seen as the list of their texts.
#[derive(Drop)]
pub struct UnionBuilder {
    regexes: Vec<Regex>,
}

impl Model for UnionBuilder {
    ghost use Rattle.std.specs.Prelude.{List, ℕ, map};
    ghost use Rattle.regex.specs.Bytes.{regex_pattern, regex_source};
    ghost use Rattle.px_patterns.specs.Searches.{AreFoundAs};

    ghost Value = { List (List ℕ) };

    ghost view = { λ b. map regex_source b.regexes.items };

    ghost invariant = { λ b. AreFoundAs (map regex_source b.regexes.items) (map regex_pattern b.regexes.items) };
}

impl UnionBuilder {
    /// No expression, which takes no memory.
    pub fn new(alloc: Global) -> UnionBuilder
        ensures { result ≡ [] }
    {
        UnionBuilder {
            regexes: Vec::new(alloc),
        }
    }

    /// Adds an expression at the end. It is built once more from its text.
    #[tactic(auto, using(crate::proofs::UnionLemmas::found_push))]
    pub fn add(&mut self, alloc: Global, expression: &Expression) -> Result<(), Mem>
        ensures ok { OnOk result (self.new ≡ self.old ++ expression.now ∷ []) }
        ensures err { OnErr result (self.new ≡ self.old) }
    {
        let regex = build_again(alloc, expression)?;
        self.regexes.push(regex)?;
        Ok(())
    }

    /// The union of the expressions. Where memory is wanting it is slower.
    pub fn build(self) -> Union
        ensures { result ≡ self }
    {
        Union {
            set: RegexSet::from_regexes(self.regexes),
        }
    }
}

/// What the library makes of an expression's text.
fn build_again(alloc: Global, expression: &Expression) -> Result<Regex, Mem>
    ensures { IfOk result (λ regex. IsBuiltFrom expression.now regex) }
{
    match build(alloc, expression.text()) {
        Ok(regex) => Ok(Box::into_inner(regex)),
        Err(_) => Err(Mem),
    }
}

/// Expressions, seen as the list of their texts, that are asked together: whether any of them finds something.
#[derive(Drop)]
pub struct Union {
    set: RegexSet,
}

impl Model for Union {
    ghost use Rattle.std.specs.Prelude.{List, ℕ};
    ghost use Rattle.regex.specs.Bytes.{set_patterns, set_sources};
    ghost use Rattle.px_patterns.specs.Searches.{AreFoundAs};

    ghost Value = { List (List ℕ) };

    ghost view = { λ u. set_sources u.set };

    ghost invariant = { λ u. AreFoundAs (set_sources u.set) (set_patterns u.set) };
}

impl Union {
    /// What searches for any of them.
    fn matcher(&self, alloc: Global) -> Result<Box<SetMatcher<'_>>, Mem>
        ensures { IfOk result (λ matcher. AreFoundAs self.now (set_matcher_patterns matcher.value)) }
    {
        let matcher = self.set.matcher(alloc)?;
        Ok(Box::new(alloc, matcher)?)
    }
}

/// A union that is lent, seen as the list of its expressions' texts. What searches for them is made at the first search and
/// kept. It is kept by one thread at a time.
#[derive(Drop)]
pub struct KeptUnion<'r> {
    union: &'r Union,
    matcher: Option<Box<SetMatcher<'r>>>,
}

impl<'r> Model for KeptUnion<'r> {
    ghost use Rattle.std.specs.Prelude.{List, ℕ, IfSome};
    ghost use Rattle.regex.specs.Bytes.{set_matcher_patterns};
    ghost use Rattle.px_patterns.specs.Searches.{AreFoundAs};

    ghost Value = { List (List ℕ) };

    ghost view = { λ k. k.union.now };

    ghost invariant = { λ k. IfSome k.matcher (λ m. AreFoundAs k.union.now (set_matcher_patterns m.value)) };
}

impl<'r> KeptUnion<'r> {
    /// A union that hasn't been searched for.
    pub fn new(union: &'r Union) -> KeptUnion<'r>
        ensures { result ≡ union.now }
    {
        KeptUnion {
            union,
            matcher: None,
        }
    }

    /// Whether any of the expressions has a match somewhere in some bytes. After want of memory it may be asked again.
    pub fn finds_any(&mut self, alloc: Global, bytes: &[u8]) -> Result<bool, Mem>
        ensures value { IfOk result (λ yes. yes ≡ list_any (λ text. finds text bytes.now) self.old) }
        ensures same { self.new ≡ self.old }
    {
        if let Some(matcher) = &mut self.matcher {
            return Ok(is_found(matcher, bytes));
        }
        let union = self.union;
        let mut matcher = union.matcher(alloc)?;
        let found = is_found(&mut matcher, bytes);
        self.matcher = Some(matcher);
        Ok(found)
    }
}

/// Whether any pattern of a set has a match in some bytes.
fn is_found(matcher: &mut SetMatcher<'_>, bytes: &[u8]) -> bool
    ensures found { result ≡ list_any (λ re. is_some (find re bytes.now 0)) (set_matcher_patterns matcher.old) }
    ensures same { set_matcher_patterns matcher.new ≡ set_matcher_patterns matcher.old }
{
    matcher.is_match(bytes)
}
