// What is received for a request: what its head reads as, and what is taken for it.
ghost use Rattle.std.specs.Prelude.{◌≡◌, IfOk};
ghost use Rattle.std.specs.Result.{result_ok};
ghost use Rattle.px_config.specs.Insides.{InsideGoesOn};
ghost use Rattle.px_judging.specs.Readings.{ReadsAs};
ghost use Rattle.px_serve.specs.Takings.{PageIfAsked, asks, handed_of};
ghost use Rattle.px_serve.specs.Receiving.{ChangesFor, TakesFor};

use px_base::{List, Mem, Peer};
use px_config::{Config, Inside, Taking};
use px_judging::{Handed, HeadReading, HeadSeen, is_page_request, read_request};
use px_publish::Snapshot;
use std::alloc::Global;

/// A request as it was received.
#[derive(Drop)]
pub struct Received {
    pub reading: HeadReading,
    /// What was taken for it: there is a taking where the head is read and its target.
    pub taken: Option<Taking>,
}

/// Reads what was seen, and takes what there is for it: once, so that a request makes one change at most.
pub fn receive<I: Inside>(
    alloc: Global,
    seen: &HeadSeen,
    snapshot: &Snapshot<'_, Config>,
    inside: &mut I,
    peer: &Peer,
) -> Result<Received, Mem>
    ensures reads { IfOk result (λ r. ReadsAs seen.now r.reading) }
    ensures takes { IfOk result (λ r. TakesFor I.lawful (I.state inside.old) (I.state inside.new) (asks snapshot.now.config.now snapshot.now.number peer.now.address r.reading) r.taken) }
    ensures pages { PageIfAsked (result_ok result) }
    ensures changes { ChangesFor (I.state inside.old).changes (I.state inside.new).changes (result_ok result) }
    ensures unlogged { (I.state inside.new).log ≡ (I.state inside.old).log }
    ensures goes_on { InsideGoesOn (I.state inside.old) (I.state inside.new) }
{
    match read_request(alloc, seen)? {
        HeadReading::Request { head, url, rule } => {
            let page_request = is_page_request(&head, &rule);
            let taken = inside.take(
                alloc,
                snapshot.config,
                snapshot.number,
                &url,
                page_request,
                peer,
            )?;
            Ok(Received {
                reading: HeadReading::Request { head, url, rule },
                taken: Some(taken),
            })
        }
        reading => Ok(Received {
            reading,
            taken: None,
        }),
    }
}

/// What an exchange is handed of what was received, if memory was there.
pub fn handed_of(
    alloc: Global,
    received: Option<Received>,
    last: bool,
    moment: u64,
) -> Option<Handed>
    ensures { result ≡ handed_of last moment received }
{
    let Received { reading, taken } = received?;
    let (tags, page) = match taken {
        Some(taken) => (taken.tags, taken.page),
        None => (List::new(alloc), None),
    };
    Some(Handed {
        reading,
        last,
        tags,
        page,
        moment,
    })
}
