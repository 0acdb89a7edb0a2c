// The conditions of a template: values by which a block stands or falls.
ghost use Rattle.std.specs.Prelude.{◌≡◌, ◌≤◌, length, IfSome};
ghost use Rattle.px_templates.specs.Symbols.{condition_at, end_mark, condition_holds, start_of, symbol_of};

use crate::symbols::{Symbol, Symbols};

#[derive(Clone, Copy, Debug, PartialEq, Eq)]
pub(crate) enum Condition {
    BlockReason,
    Parent,
}

impl Condition {
    /// The mark that begins a block.
    pub(crate) fn start(self) -> &'static [u8]
        ensures { result.now ≡ start_of self }
    {
        match self {
            Condition::BlockReason => b"@if-block-reason-start",
            Condition::Parent => b"@if-parent-start",
        }
    }

    /// The mark that ends a block.
    pub(crate) fn end(self) -> &'static [u8]
        ensures { result.now ≡ end_mark self }
    {
        match self {
            Condition::BlockReason => b"if-block-reason-end@",
            Condition::Parent => b"if-parent-end@",
        }
    }

    /// The condition with whose first mark a text begins.
    #[tactic(auto, unfolding(crate::specs::Symbols::condition_at))]
    pub(crate) fn at(text: &[u8]) -> Option<Condition>
        ensures condition { result ≡ condition_at text.now }
        ensures within { IfSome result (λ c. length (start_of c) ≤ length text.now) }
    {
        if text.starts_with(Condition::BlockReason.start()) {
            Some(Condition::BlockReason)
        } else if text.starts_with(Condition::Parent.start()) {
            Some(Condition::Parent)
        } else {
            None
        }
    }

    /// Whether the block stands.
    pub(crate) fn holds(self, symbols: &Symbols) -> bool
        ensures { result ≡ condition_holds symbols.now self }
    {
        !symbols.value(self.symbol()).is_empty()
    }

    fn symbol(self) -> Symbol
        ensures { result ≡ symbol_of self }
    {
        match self {
            Condition::BlockReason => Symbol::BlockReason,
            Condition::Parent => Symbol::Parent,
        }
    }
}
