// Ways to carry both directions of a tunnel.
ghost use Rattle.std.specs.Prelude.{◌≡◌, ◌≤◌, length};
ghost use Rattle.px_ways.specs.Ways.{TunnelEnds, CarriesBoth, carried_of};

use crate::directions::{DIRECTION_LIMIT, DirectionStop, carry_direction};
use px_base::{Sink, Source};
use std::thread::{Threads, join_mut};

/// What came of carrying both directions.
#[derive(Clone, Copy, Debug, PartialEq, Eq)]
pub struct Carried {
    /// Whether the client's source failed.
    pub client_read: bool,
    /// Whether the client's sink failed.
    pub client_write: bool,
    /// Whether memory was wanting.
    pub no_memory: bool,
}

/// What came of both directions, by why each stopped.
fn carried_of(there: DirectionStop, back: DirectionStop) -> Carried
    ensures { result ≡ carried_of there back }
{
    Carried {
        client_read: there == DirectionStop::SourceFailed,
        client_write: back == DirectionStop::SinkFailed,
        no_memory: there == DirectionStop::NoMemory || back == DirectionStop::NoMemory,
    }
}

/// A way to carry the bytes of a tunnel.
#[derive(Clone, Copy)]
pub enum Way<'r, R: Threads + Sync> {
    /// The client's bytes first, and then those of the link.
    InTurn,
    /// Both directions at once, each in a thread of its own that is started by this runtime.
    AtOnce(&'r R),
}

/// Carries the bytes between a client and a link, both directions to their ends. `ahead` was read ahead of the client's source.
/// A fault ends its own direction alone. Behind each direction its sink is finished.
pub fn carry<R: Threads + Sync, S: Source, O: Sink, I: Source, P: Sink>(
    way: &Way<'_, R>,
    ahead: &[u8],
    client_in: &mut S,
    client_out: &mut O,
    link_in: &mut I,
    link_out: &mut P,
) -> Carried
    requires short { length ahead.now ≤ DIRECTION_LIMIT }
    ensures carries { CarriesBoth ahead.now
        (record { client_in = S.state client_in.old; client_out = O.state client_out.old; link_in = I.state link_in.old; link_out = P.state link_out.old })
        (record { client_in = S.state client_in.new; client_out = O.state client_out.new; link_in = I.state link_in.new; link_out = P.state link_out.new })
        result }
{
    match way {
        Way::InTurn => carry_in_turn(ahead, client_in, client_out, link_in, link_out),
        Way::AtOnce(rt) => carry_at_once(*rt, ahead, client_in, client_out, link_in, link_out),
    }
}

fn carry_in_turn<S: Source, O: Sink, I: Source, P: Sink>(
    ahead: &[u8],
    client_in: &mut S,
    client_out: &mut O,
    link_in: &mut I,
    link_out: &mut P,
) -> Carried
    requires short { length ahead.now ≤ DIRECTION_LIMIT }
    ensures carries { CarriesBoth ahead.now
        (record { client_in = S.state client_in.old; client_out = O.state client_out.old; link_in = I.state link_in.old; link_out = P.state link_out.old })
        (record { client_in = S.state client_in.new; client_out = O.state client_out.new; link_in = I.state link_in.new; link_out = P.state link_out.new })
        result }
{
    let there = carry_direction(ahead, client_in, link_out);
    let back = carry_direction(&[], link_in, client_out);
    carried_of(there, back)
}

fn carry_at_once<R: Threads + Sync, S: Source, O: Sink, I: Source, P: Sink>(
    rt: &R,
    ahead: &[u8],
    client_in: &mut S,
    client_out: &mut O,
    link_in: &mut I,
    link_out: &mut P,
) -> Carried
    requires short { length ahead.now ≤ DIRECTION_LIMIT }
    ensures carries { CarriesBoth ahead.now
        (record { client_in = S.state client_in.old; client_out = O.state client_out.old; link_in = I.state link_in.old; link_out = P.state link_out.old })
        (record { client_in = S.state client_in.new; client_out = O.state client_out.new; link_in = I.state link_in.new; link_out = P.state link_out.new })
        result }
{
    let (there, back) = join_mut(
        rt,
        &mut || carry_direction(ahead, client_in, link_out),
        &mut || carry_direction(&[], link_in, client_out),
    );
    carried_of(there, back)
}
