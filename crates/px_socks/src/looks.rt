// Sources that a look doesn't change.
ghost use Rattle.std.specs.Prelude.{◌≡◌, IsTrue, false};
ghost use Rattle.px_base.specs.Sources.{SourceGoesOn};

use px_base::{Source, TapeIn};

/// A source of a link that may rest between two requests, of which a look counts no fault. A source behind a handshake can be
/// looked at (`Rests`) where the source below is one.
pub trait Looks: Source {
    /// Whether the link can't be used again: the other side has said the end, or has sent bytes that nobody asked for (RFC 9112,
    /// section 9.2). The look takes no byte. A source that tells its bytes has never ended so, and stays what it is.
    fn is_spent(&mut self) -> bool
        ensures told { IsTrue (Self.Source.state self.old).tells → (result ≡ false) × (self.new ≡ self.old) }
        ensures faults_same { (Self.Source.state self.new).faults ≡ (Self.Source.state self.old).faults }
        ensures goes_on { SourceGoesOn (Self.Source.state self.old) (Self.Source.state self.new) };
}

impl Looks for TapeIn {
    fn is_spent(&mut self) -> bool {
        false
    }
}
