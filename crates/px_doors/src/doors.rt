// Where connections come from.
ghost use Rattle.std.specs.Prelude.{◌≡◌, ◌-◌, ◌^◌, ◌<◌, IsTrue, OnErr, OnOk, IfSome, None, Some, length};
ghost use Rattle.px_base.specs.Causes.{HasCause};
ghost use Rattle.px_doors.specs.Doors.{DoorsState, DoorsGoesOn, Stays, Accepts, AcceptCause, Parts};

use crate::{ListenAddress, Parted};
use px_base::Failed;
use px_ends::{Ends, Outside};

/// Why no connection was accepted: the call failed and the doors' count rose, or memory was wanting.
#[derive(Clone, Copy, Debug, PartialEq, Eq)]
pub enum AcceptFault {
    Failed,
    Mem,
}

/// Gives connections, and takes back those that were served. It counts the connections accepted, and the faults of
/// `listen` and `accept`.
pub trait Doors: Send {
    /// The types of a connection's ends.
    type Conn: Outside;

    /// What contracts see of them.
    ghost state: { Self → DoorsState };

    /// Begins to take connections at that address.
    fn listen(&mut self, address: ListenAddress) -> Result<(), Failed>
        ensures listens { OnOk result ((state self.new).listens_at ≡ Some address) }
        ensures as_before { OnErr result ((state self.new).listens_at ≡ (state self.old).listens_at) }
        ensures stays { Stays (state self.old) (state self.new) }
        ensures cause { HasCause (state self.old).faults (state self.new).faults result }
        ensures goes_on { DoorsGoesOn (state self.old) (state self.new) };

    /// The next connection; the room that `part` needs for it is made first. `None` where no more come, which only doors say that
    /// tell their connections.
    fn accept(&mut self) -> Result<Option<Ends<Self::Conn>>, AcceptFault>
        requires { (state self.old).accepted < 2 ^ 64 - 1 }
        ensures accepts { Accepts (state self.old) (state self.new) result }
        ensures listens { (state self.new).listens_at ≡ (state self.old).listens_at }
        ensures cause { AcceptCause (state self.old).faults (state self.new).faults result }
        ensures goes_on { DoorsGoesOn (state self.old) (state self.new) };

    /// Lets go of what both ends of a connection hold of the system, before it is parted: later reads and writes may fail. It is asked of
    /// no doors, since who parts a connection may wait for them while its client waits for the end. What contracts see of the ends
    /// is the same.
    fn leave(
        client_in: &mut <Self::Conn as Outside>::In,
        client_out: &mut <Self::Conn as Outside>::Out,
    )
        ensures source_same { Self.Conn.In.state client_in.new ≡ Self.Conn.In.state client_in.old }
        ensures sink_same { Self.Conn.Out.state client_out.new ≡ Self.Conn.Out.state client_out.old };

    /// Lets go of the links that a connection's dialer keeps for later dials, before it is parted, as `leave` does of its ends. What
    /// contracts see of the dialer is the same.
    fn rest(dialer: &mut <Self::Conn as Outside>::Dial)
        ensures dialer_same { Self.Conn.Dial.state dialer.new ≡ Self.Conn.Dial.state dialer.old };

    /// Takes back a connection that was served, out of its place. (A method that takes ends by value has no proof yet.)
    fn part(&mut self, parted: &mut Option<Parted<Self::Conn>>)
        requires { IsTrue (state self.old).tells → length (state self.old).parted < (state self.old).accepted }
        ensures parts { IfSome parted.old (λ p. Parts (state self.old) (state self.new) p) }
        ensures taken { parted.new ≡ None }
        ensures listens { (state self.new).listens_at ≡ (state self.old).listens_at }
        ensures goes_on { DoorsGoesOn (state self.old) (state self.new) };
}
