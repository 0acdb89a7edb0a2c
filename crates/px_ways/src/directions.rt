// One direction of a tunnel.
ghost use Rattle.std.specs.Prelude.{◌≡◌, ◌<◌, ◌≤◌, ◌-◌, ◌^◌, ◌++◌, length};
ghost use Rattle.px_base.specs.Sinks.{SinkGoesOn};
ghost use Rattle.px_base.specs.Sources.{SourceGoesOn};
ghost use Rattle.px_ways.specs.Directions.{Carries, Copies, Direction, stop_of};

use px_base::{Failed, Sink, SinkFault, Source, write_all};

/// The most bytes that one direction of a tunnel carries.
pub const DIRECTION_LIMIT: u64 = 9_223_372_036_854_775_807;

/// The most bytes that one read asks for.
const PIECE: usize = 8_192;

/// What the limit of a direction is.
pub fn constants()
    ensures { DIRECTION_LIMIT ≡ 2 ^ 63 - 1 }
{}

/// Why a direction stopped.
#[derive(Clone, Copy, Debug, PartialEq, Eq)]
pub enum DirectionStop {
    /// All its bytes were carried, or as many as a direction may carry.
    Whole,
    /// Its source's count of faults rose.
    SourceFailed,
    /// Its sink's count of faults rose.
    SinkFailed,
    /// Its sink wanted memory.
    NoMemory,
}

/// Why a sink that refused bytes stops a direction.
fn stop_of(fault: SinkFault) -> DirectionStop
    ensures { result ≡ stop_of fault }
{
    match fault {
        SinkFault::Failed => DirectionStop::SinkFailed,
        SinkFault::Mem => DirectionStop::NoMemory,
    }
}

/// Copies a piece of a source's bytes to a sink: how many, 0 only where none is left, or why the direction stops.
fn copy_piece<S: Source, O: Sink>(
    source: &mut S,
    sink: &mut O,
    piece: &mut [u8],
) -> Result<usize, DirectionStop>
    requires room { 0 < length piece.old }
    ensures copies { Copies (S.state source.old) (S.state source.new) (O.state sink.old) (O.state sink.new) (length piece.old) result }
    ensures open { (O.state sink.new).finished ≡ (O.state sink.old).finished }
    ensures source_goes_on { SourceGoesOn (S.state source.old) (S.state source.new) }
    ensures sink_goes_on { SinkGoesOn (O.state sink.old) (O.state sink.new) }
{
    let count = match source.read(piece) {
        Ok(count) => count,
        Err(Failed) => return Err(DirectionStop::SourceFailed),
    };
    match write_all(sink, &piece[..count]) {
        Ok(()) => Ok(count),
        Err(fault) => Err(stop_of(fault)),
    }
}

/// Copies bytes and then those of a source to a sink, each piece before the next is read. The sink is left open.
fn copy<S: Source, O: Sink>(first: &[u8], source: &mut S, sink: &mut O) -> DirectionStop
    requires short { length first.now ≤ DIRECTION_LIMIT }
    ensures carries { Carries (first.now ++ (S.state source.old).left) (S.state source.old) (S.state source.new) (O.state sink.old) (O.state sink.new) result }
    ensures open { (O.state sink.new).finished ≡ (O.state sink.old).finished }
{
    if let Err(fault) = write_all(sink, first) {
        return stop_of(fault);
    }
    let mut piece = [0u8; PIECE];
    let mut left = DIRECTION_LIMIT - first.len() as u64;
    'pieces: while left > 0 {
        let room = left.min(PIECE as u64) as usize;
        match copy_piece(source, sink, &mut piece[..room]) {
            Ok(0) => return DirectionStop::Whole,
            Ok(count) => left -= count as u64,
            Err(stop) => return stop,
        }
    }
    DirectionStop::Whole
}

/// Carries one direction: copies bytes that were read ahead of a source, and then those of the source, to a sink, up to
/// `DIRECTION_LIMIT` of them, and finishes the sink.
pub fn carry_direction<S: Source, O: Sink>(
    ahead: &[u8],
    source: &mut S,
    sink: &mut O,
) -> DirectionStop
    requires short { length ahead.now ≤ DIRECTION_LIMIT }
    ensures direction { Direction (ahead.now ++ (S.state source.old).left) (S.state source.old) (S.state source.new) (O.state sink.old) (O.state sink.new) result }
{
    let stop = copy(ahead, source, sink);
    sink.finish();
    stop
}
