// The addresses of a host, tried one behind the other.
ghost use Rattle.std.specs.Prelude.{◌≡◌, ◌≢◌, ◌≤◌, ◌⊎◌, ◌++◌, ◌∷◌, [], ℕ, List, IfErr, IfOk};
ghost use Rattle.std.specs.Net.ToAddrs.{host_addrs};
ghost use Rattle.std.specs.declared.net.socket_addr.SocketAddr.{SocketAddr};
ghost use Rattle.px_sockets.specs.Tried.{tried_of, InTurn};

use crate::times::now_millis;
use px_base::DialFault;
use std::net::{HostAddrs, Net, SocketAddr, TcpListener, TcpStream};
use std::rt;
use std::snapshot::Snapshot;
use std::time::Duration;

/// What addresses are tried with, and a clock.
pub trait Tries {
    type Stream: Drop;

    /// The addresses that were tried, in order.
    ghost tried: { Self → List SocketAddr };

    /// What its clock said last.
    ghost said: { Self → ℕ };

    /// A stream to an address that answers within so long.
    fn try_once(&mut self, address: SocketAddr, wait: Duration) -> Option<Self::Stream>
        ensures tried { tried self.new ≡ tried self.old ++ address ∷ [] };

    /// What its clock says, in milliseconds.
    fn now(&mut self) -> u64
        ensures said { said self.new ≡ result }
        ensures tried_same { tried self.new ≡ tried self.old };
}

/// The addresses that were tried, from the newest back. All but the newest take no bytes.
#[derive(Drop)]
pub enum Tried {
    Nothing,
    Behind {
        before: Snapshot<Tried>,
        address: SocketAddr,
    },
}

/// A network and its clock, and what was tried over it.
#[derive(Drop)]
pub struct NetTries<'r, R> {
    rt: &'r R,
    tried: Tried,
    said: u64,
}

impl<'r, R> NetTries<'r, R> {
    /// Nothing is tried yet.
    pub fn new(rt: &'r R) -> NetTries<'r, R>
        ensures none { tried_of result.tried ≡ [] }
    {
        NetTries {
            rt,
            tried: Tried::Nothing,
            said: 0,
        }
    }
}

impl<'r, R: Net<Listener = TcpListener, Stream = TcpStream> + rt::Clock> Tries for NetTries<'r, R> {
    type Stream = TcpStream;

    ghost tried = { λ t. tried_of t.tried };

    ghost said = { λ t. t.said };

    fn try_once(&mut self, address: SocketAddr, wait: Duration) -> Option<TcpStream> {
        self.tried = Tried::Behind {
            before: Snapshot::of(&self.tried),
            address,
        };
        self.rt.connect_timeout(address, wait).ok()
    }

    fn now(&mut self) -> u64 {
        self.said = now_millis(self.rt);
        self.said
    }
}

/// A stream to the first of these addresses that answers before the clock says that it is so late. Each that others follow is tried
/// for so long at most, and each at most once. Its one refusal is that none was reached: all were tried, or it was so late.
pub fn try_in_turn<T: Tries>(
    tries: &mut T,
    each: Duration,
    until: u64,
    mut addresses: HostAddrs,
) -> Result<T::Stream, DialFault>
    ensures in_turn { InTurn (T.tried tries.old) (T.tried tries.new) (host_addrs addresses) }
    ensures reached { IfOk result (λ _. T.tried tries.new ≢ T.tried tries.old) }
    ensures refusal { IfErr result (λ fault. fault ≡ DialFault.NotReached) }
    ensures refused { IfErr result (λ _. (T.tried tries.new ≡ T.tried tries.old ++ host_addrs addresses) ⊎ (until ≤ T.said tries.new)) }
{
    while let Some(address) = addresses.next() {
        let now = tries.now();
        if until <= now {
            return Err(DialFault::NotReached);
        }
        let left = Duration::from_millis(until - now);
        let wait = if addresses.len() > 0 {
            left.min(each)
        } else {
            left
        };
        if let Some(stream) = tries.try_once(address, wait) {
            return Ok(stream);
        }
    }
    Err(DialFault::NotReached)
}
