// Places of patterns for every host, parted by whether their path patterns are asked together.
ghost use Rattle.std.specs.Prelude.{◌≡◌, ◌++◌, ◌∷◌, [], IfOk, IfSome, OnOk, Some, option_copied};
ghost use Rattle.px_merge.specs.Finders.{AreAsked, AreOnce, HasPath, KeepsPlaces, parted_places};
ghost use Rattle.px_merge.specs.Indexes.{pattern_at};

use crate::expressions::pattern_at;
use crate::places::{PatternPlace, Placed};
use px_action_files::Pattern;
use px_base::{List, Mem};
use px_patterns::{Expression, HostPattern, UnionBuilder, UrlPattern};
use std::alloc::Global;

/// Places of patterns, in two parts.
#[derive(Drop)]
pub struct PlaceParts {
    /// Those that are tried at every URL.
    pub always: List<PatternPlace>,
    /// Those that are tried where the union of their expressions finds something in the path.
    pub paths: List<PatternPlace>,
    /// Their expressions.
    pub union: UnionBuilder,
}

impl PlaceParts {
    fn add_always(&mut self, place: PatternPlace) -> Result<(), Mem>
        ensures always { OnOk result (self.new.always ≡ self.old.always ++ place ∷ []) }
        ensures paths { OnOk result (self.new.paths ≡ self.old.paths) }
        ensures union { OnOk result (self.new.union ≡ self.old.union) }
    {
        self.always.add(place)
    }

    fn add_path(
        &mut self,
        alloc: Global,
        expression: &Expression,
        place: PatternPlace,
    ) -> Result<(), Mem>
        ensures always { OnOk result (self.new.always ≡ self.old.always) }
        ensures paths { OnOk result (self.new.paths ≡ self.old.paths ++ place ∷ []) }
        ensures union { OnOk result (self.new.union ≡ self.old.union ++ expression.now ∷ []) }
    {
        self.union.add(alloc, expression)?;
        self.paths.add(place)
    }

    /// Adds a place to one of the parts.
    fn add(&mut self, alloc: Global, sections: &[Placed], place: PatternPlace) -> Result<(), Mem>
        ensures kept { OnOk result (KeepsPlaces (parted_places self.old ++ place ∷ []) (parted_places self.new)) }
        ensures once { OnOk result (AreOnce (parted_places self.old ++ place ∷ []) (parted_places self.new)) }
        ensures asked { OnOk result (AreAsked sections.now self.old.union self.old.paths → AreAsked sections.now self.new.union self.new.paths) }
    {
        match path_at(alloc, sections, place)? {
            Some(expression) => {
                self.add_path(alloc, expression, place)?;
                Ok(())
            }
            None => {
                self.add_always(place)?;
                Ok(())
            }
        }
    }

    /// The parts of some places.
    pub fn new(
        alloc: Global,
        sections: &[Placed],
        places: &[PatternPlace],
    ) -> Result<PlaceParts, Mem>
        ensures kept { IfOk result (λ parts. KeepsPlaces places.now (parted_places parts)) }
        ensures once { IfOk result (λ parts. AreOnce places.now (parted_places parts)) }
        ensures asked { IfOk result (λ parts. AreAsked sections.now parts.union parts.paths) }
    {
        let mut parts = PlaceParts {
            always: List::new(alloc),
            paths: List::new(alloc),
            union: UnionBuilder::new(alloc),
        };
        let mut rest = places;
        'places: while let Some((place, others)) = rest.split_first() {
            parts.add(alloc, sections, *place)?;
            rest = others;
        }
        Ok(parts)
    }
}

/// The expression of the pattern at a place, if it is one whose path pattern is asked with others.
fn path_at(
    alloc: Global,
    sections: &[Placed],
    place: PatternPlace,
) -> Result<Option<&Expression>, Mem>
    ensures { IfOk result (λ path. IfSome (option_copied path) (λ text. HasPath text (pattern_at sections.now place))) }
{
    match pattern_at(sections, place) {
        Some(pattern) => path_in(alloc, pattern),
        None => Ok(None),
    }
}

/// The expression of a pattern, if it is one whose path pattern is asked with others.
fn path_in(alloc: Global, pattern: &Pattern) -> Result<Option<&Expression>, Mem>
    ensures { IfOk result (λ path. IfSome (option_copied path) (λ text. HasPath text (Some pattern.now))) }
{
    match pattern {
        Pattern::Url(pattern) => path_of(alloc, pattern),
        Pattern::Tag(_) => Ok(None),
        Pattern::NoRequestTag(_) => Ok(None),
        Pattern::NoResponseTag(_) => Ok(None),
        Pattern::ClientTag(_) => Ok(None),
    }
}

/// The expression of a URL pattern, if its host part is empty; one with a host expression is tried by itself. One that finds something in the path `/` already, as that of the
/// path pattern `/`, would find something in most paths, so it isn't asked with others.
fn path_of(alloc: Global, pattern: &UrlPattern) -> Result<Option<&Expression>, Mem>
    ensures { IfOk result (λ path. IfSome (option_copied path) (λ text. pattern.now.path ≡ Some text)) }
{
    if !is_for_every_host(pattern) {
        return Ok(None);
    }
    let Some(expression) = &pattern.path else {
        return Ok(None);
    };
    if expression.finds(alloc, b"/")? {
        return Ok(None);
    }
    Ok(Some(expression))
}

fn is_for_every_host(pattern: &UrlPattern) -> bool {
    match pattern.host() {
        Some(own) => matches!(own, HostPattern::Always),
        None => false,
    }
}
