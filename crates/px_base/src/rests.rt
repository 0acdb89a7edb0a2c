// Sources that can be looked at while nothing is read.
ghost use Rattle.std.specs.Prelude.{◌≡◌, IsTrue, false};
ghost use Rattle.px_base.specs.Sources.{SourceGoesOn};

use crate::{LocalSource, TapeIn};

/// A source of a link that may rest between two requests, and be looked at before it is used again.
pub trait Rests: LocalSource {
    /// Whether the link can't be used again: the other side has said the end, or has sent bytes that nobody asked for (RFC 9112,
    /// section 9.2). The look takes no byte. A source that tells its bytes has never ended so, and stays what it is.
    fn has_ended(&mut self) -> bool
        ensures told { IsTrue (Self.LocalSource.state self.old).tells → (result ≡ false) × (self.new ≡ self.old) }
        ensures faults_same { (Self.LocalSource.state self.new).faults ≡ (Self.LocalSource.state self.old).faults }
        ensures goes_on { SourceGoesOn (Self.LocalSource.state self.old) (Self.LocalSource.state self.new) };
}

impl Rests for TapeIn {
    fn has_ended(&mut self) -> bool {
        false
    }
}
