// A link is lent, and handed back.
ghost use Rattle.std.specs.Prelude.{◌≡◌, ◌↔◌, ◌++◌, [], IsTrue, false, true};
ghost use Rattle.px_base.specs.Sources.{given};
ghost use Rattle.px_pool_ends.specs.Answers.{IsAnswer, is_answered, is_lost};
ghost use Rattle.px_pool_ends.specs.Incomings.{IsLaterSource, heard};
ghost use Rattle.px_pool_ends.specs.Outgoings.{outer_sink};
ghost use Rattle.px_link_pool.specs.Histories.{is_left_open as is_left_open_spec, is_read_out as is_read_out_spec, is_sending_wanting, is_link_wanting, may_keep, IsJudged};

use crate::shelves::KeptLink;
use px_base::{LocalSink, LocalSource, SinkFault, Text};
use px_pool_ends::{Incoming, Outgoing};
use std::alloc::Global;
use std::snapshot::Snapshot;

/// Both ends of a link to that host and port as they are lent. Each knows what both inner ends are now.
pub fn lend<S: LocalSource, O: LocalSink>(
    alloc: Global,
    source: S,
    sink: O,
    host: Text,
    port: u16,
) -> (Incoming<S, O>, Outgoing<S, O>)
    requires whole { IsTrue (S.state source).tells → (S.state source).offered ≡ given (S.state source) ++ (S.state source).left }
    requires unfinished { (O.state sink).finished ≡ false }
    ensures source { result.0.source ≡ S.state source }
    ensures begun { result.0.begun ≡ S.state source }
    ensures begun_out { result.0.begun_out ≡ O.state sink }
    ensures host { result.0.host ≡ host }
    ensures port { result.0.port ≡ port }
    ensures no_read_failed { result.0.faults ≡ 0 }
    ensures none_taken { (outer_sink result.1).taken ≡ [] }
    ensures sink { result.1.sink ≡ O.state sink }
    ensures also_begun { result.1.begun ≡ O.state sink }
    ensures begun_in { result.1.begun_in ≡ S.state source }
    ensures host_out { result.1.host ≡ result.0.host }
    ensures port_out { result.1.port ≡ result.0.port }
    ensures no_write_failed { result.1.faults ≡ 0 }
    ensures not_finished { result.1.finished ≡ false }
{
    let begun_in = Snapshot::of(&source);
    let begun_out = Snapshot::of(&sink);
    let place = Snapshot::of(&host);
    let link_in = Incoming::new(alloc, source, begun_out, host, port);
    let link_out = Outgoing::new(alloc, sink, begun_in, place, port);
    (link_in, link_out)
}

/// The inner link of one that is handed back, with where it was dialled to, and whether it may be kept.
pub fn handed<S: LocalSource, O: LocalSink>(
    link_in: Incoming<S, O>,
    link_out: Outgoing<S, O>,
) -> (KeptLink<S, O>, bool)
    ensures source { S.state result.0.source ≡ link_in.source }
    ensures sink { O.state result.0.sink ≡ link_out.sink }
    ensures host { result.0.host ≡ link_in.host }
    ensures port { result.0.port ≡ link_in.port }
    ensures exactly { result.1 ≡ may_keep link_in link_out }
    ensures unfinished { IsTrue result.1 → link_out.sink.finished ≡ false }
    ensures later { IsTrue link_in.source.tells → IsLaterSource link_in.begun link_in.source }
    ensures judged { IsTrue link_in.source.tells → IsTrue link_out.sink.tells → IsJudged link_in link_out }
{
    let keeps = is_read_out(&link_in) && is_left_open(&link_out);
    let (source, host, port) = link_in.into_parts();
    let sink = link_out.into_inner();
    let link = KeptLink {
        source,
        sink,
        host,
        port,
    };
    (link, keeps)
}

/// Whether memory was wanting for a sending, the last time that one was refused.
fn was_wanting(stopped: Option<SinkFault>) -> bool
    ensures { result ≡ is_sending_wanting stopped }
{
    match stopped {
        Some(fault) => match fault {
            SinkFault::Failed => false,
            SinkFault::Mem => true,
        },
        None => false,
    }
}

/// Whether memory was wanting while the answer was followed, or for a sending of bytes that were taken.
pub fn lacks_memory<S: LocalSource, O: LocalSink>(
    link_in: &Incoming<S, O>,
    link_out: &Outgoing<S, O>,
) -> bool
    ensures { result ≡ is_link_wanting link_in.now link_out.now }
{
    link_in.has_lost() || was_wanting(link_out.stopped())
}

/// Whether one whole answer was heard and nothing more, and no read failed.
fn is_read_out<S: LocalSource, O: LocalSink>(link_in: &Incoming<S, O>) -> bool
    ensures value { result ≡ is_read_out_spec link_in.now }
    ensures answered { IsTrue link_in.now.source.tells → is_lost link_in.now.following ≡ false → (is_answered link_in.now.following ≡ true) ↔ IsAnswer 8 (heard link_in.now) }
{
    link_in.has_answer() && !link_in.has_failed()
}

/// Whether the origin was asked to keep the link by a request whose method isn't HEAD, all that was taken is sent, no write
/// failed, and the end wasn't said.
fn is_left_open<S: LocalSource, O: LocalSink>(link_out: &Outgoing<S, O>) -> bool
    ensures value { result ≡ is_left_open_spec link_out.now }
    ensures unfinished { IsTrue result → link_out.now.finished ≡ false }
{
    !link_out.has_failed()
        && link_out.stopped().is_none()
        && !link_out.is_finished()
        && link_out.replaced()
        && link_out.method() != b"HEAD".as_slice()
}
