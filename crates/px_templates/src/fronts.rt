// What stands at the front of a text that no block holds.
ghost use Rattle.std.specs.Prelude.{◌≡◌, ◌+◌, ◌<◌, ◌≤◌, length, IfSome};
ghost use Rattle.px_templates.specs.Symbols.{end_mark, start_of};
ghost use Rattle.px_templates.specs.Pieces.{block_at, end_place, front_at, width};

use crate::conditions::Condition;
use crate::symbols::Symbol;

/// What stands at the front of a text.
#[derive(Clone, Copy, Debug)]
pub(crate) enum TemplateFront {
    /// A byte.
    Byte,
    /// The mark of a symbol.
    Value(Symbol),
    /// A block with so many bytes between its marks.
    Block(Condition, usize),
    /// The first mark of a block that isn't ended.
    Open,
}

impl TemplateFront {
    #[tactic(auto, unfolding(crate::specs::Pieces::front_at))]
    pub(crate) fn at(text: &[u8]) -> TemplateFront
        requires { 0 < length text.now }
        ensures front { result ≡ front_at text.now }
        ensures within { width result ≤ length text.now }
    {
        match Symbol::at(text) {
            Some(symbol) => TemplateFront::Value(symbol),
            None => match Condition::at(text) {
                Some(condition) => block_at(condition, text),
                None => TemplateFront::Byte,
            },
        }
    }
}

/// The block whose first mark begins the text.
fn block_at(condition: Condition, text: &[u8]) -> TemplateFront
    requires { length (start_of condition) ≤ length text.now }
    ensures front { result ≡ block_at condition text.now }
    ensures within { width result ≤ length text.now }
{
    match end_place(condition, &text[condition.start().len()..]) {
        Some(len) => TemplateFront::Block(condition, len),
        None => TemplateFront::Open,
    }
}

/// The first place at which the mark that ends a block stands.
fn end_place(condition: Condition, text: &[u8]) -> Option<usize>
    ensures place { result ≡ end_place condition text.now }
    ensures within { IfSome result (λ n. n + length (end_mark condition) ≤ length text.now) }
{
    for at in 0..text.len() {
        if text[at..].starts_with(condition.end()) {
            return Some(at);
        }
    }
    None
}
