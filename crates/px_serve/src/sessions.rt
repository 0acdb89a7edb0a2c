// One session.
ghost use Rattle.std.specs.Prelude.{◌≡◌, ◌<◌, [], length};
ghost use Rattle.px_serve.specs.Histories.{looks_of};
ghost use Rattle.px_serve.specs.Keeping.{IsKept, IsStored};
ghost use Rattle.px_serve.specs.Sessions.{Turned, Runs, ServesFitting};

use crate::ends::{REQUEST_LIMIT, end_after};
use crate::heads::next_head;
use crate::keeping::{KeptEntry, Store, answer};
use crate::logging::log_exchange;
use crate::notes::Notes;
use crate::receiving::{handed_of, receive};
use px_base::{Clock, List, Mem, Sink};
use px_config::{Config, Inside};
use px_ends::{Ends, Outside};
use px_notes::{ExchangeNote, Session, SessionEnd};
use px_publish::{Configs, CountFull};
use px_ways::Way;
use std::alloc::Global;
use std::thread::Threads;

/// Serves the next request, with one look at the configurations and one moment, or sees how the session ends before it.
fn serve_request<R: Threads + Sync, K: Configs<Held = Config>, I: Inside, A: Outside>(
    alloc: Global,
    way: &Way<'_, R>,
    kept: &mut KeptEntry<'_>,
    configs: &mut K,
    inside: &mut I,
    ends: &mut Ends<A>,
    notes: &mut Notes,
) -> Option<SessionEnd>
    requires limit { length notes.old < REQUEST_LIMIT }
    requires kept { IsKept (K.view configs.old) kept.old }
    ensures turned { Turned I.lawful (I.state inside.old) (I.state inside.new) (looks_of K.tells K.view K.pair K.coming configs.old) (looks_of K.tells K.view K.pair K.coming configs.new) ends.old ends.new notes.old notes.new result }
    ensures kept { IsKept (K.view configs.new) kept.new }
{
    match next_head(alloc, ends) {
        Ok(seen) => {
            let last = notes.count() + 1 == REQUEST_LIMIT;
            configs.look();
            let snapshot = configs.current();
            let moment = ends.clock.now();
            let received = receive(alloc, &seen, &snapshot, inside, &ends.peer).ok();
            let handed = handed_of(alloc, received, last, moment);
            let logs = inside.logs();
            let answered = answer(alloc, way, handed, &snapshot, kept, ends, logs);
            log_exchange(inside, &seen, &ends.peer, moment, answered);
            let concluded = answered.concluded;
            notes.add(ExchangeNote {
                config: snapshot.number,
                moment,
                ending: concluded.ending,
            });
            end_after(last, concluded)
        }
        Err(end) => Some(end),
    }
}

/// Serves requests, each with at most one look, until the session ends. The client's sink is left open.
fn serve<R: Threads + Sync, K: Configs<Held = Config>, I: Inside, A: Outside>(
    alloc: Global,
    way: &Way<'_, R>,
    kept: &mut KeptEntry<'_>,
    configs: &mut K,
    inside: &mut I,
    ends: &mut Ends<A>,
    notes: &mut Notes,
) -> SessionEnd
    requires none { notes.old ≡ [] }
    requires kept { IsKept (K.view configs.old) kept.old }
    ensures runs { Runs I.lawful (I.state inside.old) (I.state inside.new) (looks_of K.tells K.view K.pair K.coming configs.old) (looks_of K.tells K.view K.pair K.coming configs.new) ends.old ends.new notes.new result }
    ensures kept { IsKept (K.view configs.new) kept.new }
{
    'requests: loop {
        match serve_request(alloc, way, kept, configs, inside, ends, notes) {
            Some(end) => return end,
            None => {}
        }
    }
}

/// Takes room for the notes and serves. The client's sink is left open.
fn serve_noted<R: Threads + Sync, K: Configs<Held = Config>, I: Inside, A: Outside>(
    alloc: Global,
    way: &Way<'_, R>,
    store: &mut Store<'_>,
    configs: &mut K,
    inside: &mut I,
    ends: &mut Ends<A>,
) -> Session
    requires stored { IsStored (K.view configs.old) store.old }
    ensures runs { Runs I.lawful (I.state inside.old) (I.state inside.new) (looks_of K.tells K.view K.pair K.coming configs.old) (looks_of K.tells K.view K.pair K.coming configs.new) ends.old ends.new result.exchanges result.end }
    ensures stored { IsStored (K.view configs.new) store.new }
{
    match store {
        Store::Of(kept) => match Notes::new(alloc) {
            Ok(mut notes) => {
                let end = serve(alloc, way, kept, configs, inside, ends, &mut notes);
                Session {
                    exchanges: notes.into_list(),
                    end,
                }
            }
            Err(Mem) => Session {
                exchanges: List::new(alloc),
                end: SessionEnd::NoMemory,
            },
        },
        Store::Wanting => Session {
            exchanges: List::new(alloc),
            end: SessionEnd::NoMemory,
        },
    }
}

/// Serves one connection: its requests one after the other, up to `REQUEST_LIMIT`, with a store of an entry that the
/// configurations have had: where it is the one that a request looks up, the request is answered with it. A worker so keeps its
/// store from connection to connection. Whatever the end, the client's sink is finished behind it.
pub fn serve_connection<R: Threads + Sync, K: Configs<Held = Config>, I: Inside, A: Outside>(
    alloc: Global,
    way: &Way<'_, R>,
    store: &mut Store<'_>,
    configs: &mut K,
    inside: &mut I,
    ends: &mut Ends<A>,
) -> Session
    requires stored { IsStored (K.view configs.old) store.old }
    ensures serves { ServesFitting I.lawful (I.state inside.old) (I.state inside.new) (looks_of K.tells K.view K.pair K.coming configs.old) (looks_of K.tells K.view K.pair K.coming configs.new) ends.old ends.new result.exchanges result.end }
    ensures stored { IsStored (K.view configs.new) store.new }
{
    let session = serve_noted(alloc, way, store, configs, inside, ends);
    ends.client_out.finish();
    session
}

/// Serves one connection with a store of its own, which is made of the entry that is held before anything is read.
pub fn serve_cold<R: Threads + Sync, K: Configs<Held = Config>, I: Inside, A: Outside>(
    alloc: Global,
    way: &Way<'_, R>,
    configs: &mut K,
    inside: &mut I,
    ends: &mut Ends<A>,
) -> Session
    ensures { ServesFitting I.lawful (I.state inside.old) (I.state inside.new) (looks_of K.tells K.view K.pair K.coming configs.old) (looks_of K.tells K.view K.pair K.coming configs.new) ends.old ends.new result.exchanges result.end }
{
    let number = configs.current().number;
    match configs.owner() {
        Ok(owner) => {
            let mut store = Store::new(alloc, number, &owner);
            serve_connection(alloc, way, &mut store, configs, inside, ends)
        }
        Err(CountFull) => {
            let mut store = Store::Wanting;
            serve_connection(alloc, way, &mut store, configs, inside, ends)
        }
    }
}
