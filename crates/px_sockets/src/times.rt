// How long sockets wait. These are the times of the manual; tests hand in shorter ones.
ghost use Rattle.std.specs.Prelude.{◌≡◌, ◌*◌, ◌^◌};
ghost use Rattle.std.specs.Duration.{as_nanos};

use std::rt;
use std::time::Duration;

/// So long nothing may move on a socket, either way: a read that waits for longer fails, and so does a write of which nothing
/// is taken for so long.
const IDLE_SECONDS: u64 = 300;

/// So long a client may take for the next piece of a head, while no link of its connection is in use.
const PIECE_SECONDS: u64 = 15;

/// So long a client may take for a whole head, from when a link of its connection was last in use or it was last written to.
const HEAD_SECONDS: u64 = 60;

/// So long a dial takes at most, over all addresses of its host together.
const DIAL_SECONDS: u64 = 30;

/// So long one address is tried where others follow.
const ADDRESS_SECONDS: u64 = 10;

/// So long what a client still sends at the end of its connection is thrown away, before it is closed.
const LINGER_SECONDS: u64 = 2;

/// So many bytes of it are thrown away.
const LINGER_BYTES: u64 = 1_048_576;

/// So long accepting is tried again where descriptors or buffers are wanting.
const ACCEPT_SECONDS: u64 = 10;

/// After so long a read that waits looks whether the other half of its socket moved.
pub(crate) const LOOK_MILLIS: u64 = 30_000;

/// After so long an accept that waits looks after connections that end.
pub(crate) const SWEEP_MILLIS: u64 = 20;

/// After so long an accept that waits looks whether a connection has ended.
pub(crate) const WATCH_MILLIS: u64 = 500;

/// So long accepting pauses where descriptors or buffers are wanting.
pub(crate) const PAUSE_MILLIS: u64 = 100;

/// How long sockets wait, and how much is thrown away at a connection's end.
#[derive(Clone, Copy, Debug, PartialEq, Eq)]
pub struct Times {
    /// The longest that nothing moves on a socket, either way: 300 s.
    pub idle: Duration,
    /// The longest wait for the next piece of a head, while no link of the connection is in use: 15 s.
    pub piece: Duration,
    /// The longest wait for a whole head, since a link of the connection was last in use or its client was last written to: 60 s.
    pub head: Duration,
    /// The longest dial, over all addresses of its host: 30 s.
    pub dial: Duration,
    /// The longest try of one address where others follow: 10 s.
    pub address: Duration,
    /// How long what a client still sends at the end is thrown away: 2 s.
    pub linger: Duration,
    /// How many bytes of it are thrown away: 1,048,576.
    pub linger_bytes: u64,
    /// How long accepting is tried again where descriptors or buffers are wanting: 10 s.
    pub accept: Duration,
}

impl Times {
    /// The times of the manual.
    pub fn usual() -> Times
        ensures idle { as_nanos result.idle ≡ 300 * 10 ^ 9 }
        ensures piece { as_nanos result.piece ≡ 15 * 10 ^ 9 }
        ensures head { as_nanos result.head ≡ 60 * 10 ^ 9 }
        ensures dial { as_nanos result.dial ≡ 30 * 10 ^ 9 }
        ensures address { as_nanos result.address ≡ 10 * 10 ^ 9 }
        ensures linger { as_nanos result.linger ≡ 2 * 10 ^ 9 }
        ensures linger_bytes { result.linger_bytes ≡ 2 ^ 20 }
        ensures accept { as_nanos result.accept ≡ 10 * 10 ^ 9 }
    {
        Times {
            idle: Duration::from_secs(IDLE_SECONDS),
            piece: Duration::from_secs(PIECE_SECONDS),
            head: Duration::from_secs(HEAD_SECONDS),
            dial: Duration::from_secs(DIAL_SECONDS),
            address: Duration::from_secs(ADDRESS_SECONDS),
            linger: Duration::from_secs(LINGER_SECONDS),
            linger_bytes: LINGER_BYTES,
            accept: Duration::from_secs(ACCEPT_SECONDS),
        }
    }
}

/// The milliseconds that the runtime's steady clock has counted. Where it can't be read it stands at its end, so that no wait lasts
/// for good.
pub(crate) fn now_millis<R: rt::Clock>(rt: &R) -> u64 {
    match rt.monotonic() {
        Ok(time) => u64::try_from(time.as_millis()).unwrap_or(u64::MAX),
        Err(_) => u64::MAX,
    }
}

/// The time from one reading of the clock to a later one; none where it isn't later.
pub(crate) fn between(earlier: u64, later: u64) -> Duration {
    Duration::from_millis(later.saturating_sub(earlier))
}
