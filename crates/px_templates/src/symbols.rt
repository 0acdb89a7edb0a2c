// The symbols of a template and their values.
ghost use Rattle.std.specs.Prelude.{◌≡◌, ◌≤◌, length, IfSome};
ghost use Rattle.px_templates.specs.Symbols.{mark_of, symbol_at, symbol_value};

use px_base::Text;

/// The values of a template's symbols. A value that isn't known is empty.
#[derive(Drop)]
pub struct Symbols {
    /// `@hostname@`: the host of the URL.
    pub hostname: Text,
    /// `@port@`: the port of the URL in decimal.
    pub port: Text,
    /// `@path@`: the path of the URL.
    pub path: Text,
    /// `@url@`: the URL.
    pub url: Text,
    /// `@block-reason@`: the parameter of `block`.
    pub block_reason: Text,
    /// `@error@`: the name of a refusal.
    pub error: Text,
    /// `@parent@`: the host of a parent, a colon and its port.
    pub parent: Text,
}

#[derive(Clone, Copy, Debug, PartialEq, Eq)]
pub(crate) enum Symbol {
    Hostname,
    Port,
    Path,
    Url,
    BlockReason,
    Error,
    Parent,
}

impl Symbol {
    /// What the value takes the place of.
    pub(crate) fn mark(self) -> &'static [u8]
        ensures { result.now ≡ mark_of self }
    {
        match self {
            Symbol::Hostname => b"@hostname@",
            Symbol::Port => b"@port@",
            Symbol::Path => b"@path@",
            Symbol::Url => b"@url@",
            Symbol::BlockReason => b"@block-reason@",
            Symbol::Error => b"@error@",
            Symbol::Parent => b"@parent@",
        }
    }

    /// The symbol with whose mark a text begins.
    #[tactic(auto, unfolding(crate::specs::Symbols::symbol_at))]
    pub(crate) fn at(text: &[u8]) -> Option<Symbol>
        ensures symbol { result ≡ symbol_at text.now }
        ensures within { IfSome result (λ s. length (mark_of s) ≤ length text.now) }
    {
        if text.starts_with(Symbol::Hostname.mark()) {
            Some(Symbol::Hostname)
        } else if text.starts_with(Symbol::Port.mark()) {
            Some(Symbol::Port)
        } else if text.starts_with(Symbol::Path.mark()) {
            Some(Symbol::Path)
        } else if text.starts_with(Symbol::Url.mark()) {
            Some(Symbol::Url)
        } else if text.starts_with(Symbol::BlockReason.mark()) {
            Some(Symbol::BlockReason)
        } else if text.starts_with(Symbol::Error.mark()) {
            Some(Symbol::Error)
        } else if text.starts_with(Symbol::Parent.mark()) {
            Some(Symbol::Parent)
        } else {
            None
        }
    }
}

impl Symbols {
    pub(crate) fn value(&self, symbol: Symbol) -> &[u8]
        ensures { result.now ≡ symbol_value self.now symbol }
    {
        match symbol {
            Symbol::Hostname => self.hostname.as_bytes(),
            Symbol::Port => self.port.as_bytes(),
            Symbol::Path => self.path.as_bytes(),
            Symbol::Url => self.url.as_bytes(),
            Symbol::BlockReason => self.block_reason.as_bytes(),
            Symbol::Error => self.error.as_bytes(),
            Symbol::Parent => self.parent.as_bytes(),
        }
    }
}
