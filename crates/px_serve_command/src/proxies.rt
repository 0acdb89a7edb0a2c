// The command `serve`: connections of doors by a configuration that is loaded again with each.
ghost use Rattle.std.specs.Prelude.{◌≡◌, ◌∷◌, ◌<◌, ◌≤◌, [], All, is_some, IfErr, IfOk, IsTrue, Some, map, string_bytes, vec_len};
ghost use Rattle.px_base.specs.Contents.{FilesGoOn};
ghost use Rattle.px_config.specs.Gathering.{OnlyReads, ReadsOneOf, gathered, names_read};
ghost use Rattle.px_config.specs.Loading.{IsLoadFault, LoadCauses};
ghost use Rattle.px_config.specs.Spelling.{spelled};
ghost use Rattle.px_publish.specs.Published.{pair_of, published, reader_pair};
ghost use Rattle.px_desk.specs.Desks.{BeginsWithSpelling, StandsAfter};
ghost use Rattle.px_desk.specs.Facts.{DoorsBegun, Closes};
ghost use Rattle.px_desk.specs.Sets.{Spells};
ghost use Rattle.px_desk.specs.Turns.{none};
ghost use Rattle.px_serve_command.specs.Proxies.{ProxyGoesOn, RunsProxy, RunsServe, ServedByAsMany, ServesBy, ServesFirst, ServesLoaded, ServesPublished, ServesSharing};

use crate::boards::{Host, serve_desk};
use crate::endings::status_of_serving;
use px_base::{Dialer, Failed, Files, Mem, Sink};
use px_commands::{ServeWords, Status, USAGE, parse_serve, read_serve, report, report_load};
use px_config::{Config, FileSet, LoadFault, gather, spell};
use px_desk::{Desk, DeskParts, ReloadCounts};
use px_doors::{Doors, ListenAddress};
use px_ends::Outside;
use px_link_pool::{Look, Sees};
use px_publish::{ConfigReader, Publisher, publish_pair};
use px_serve::Logs;
use px_shared::{Opening, SharedDoors};
use std::alloc::Global;
use std::marker::Brand;
use std::sync::{Arc, Wait};
use std::thread::Threads;

/// How a proxy ended: the exit status, what it was run with, how many connections were handed out with each result of loading the
/// configuration again, and by how many workers they were served.
#[derive(Drop)]
pub struct Proxied<F, A, E> {
    pub status: u8,
    pub parts: DeskParts<F, A, E>,
    pub counts: ReloadCounts,
    pub workers: u64,
}

/// The same before the status is a number.
struct Ended<F, A, E> {
    status: Status,
    parts: DeskParts<F, A, E>,
    counts: ReloadCounts,
    workers: u64,
}

/// No connection was handed out.
fn unserved<F, A, E>(status: Status, parts: DeskParts<F, A, E>) -> Ended<F, A, E>
    ensures { result ≡ record { status = status; parts = parts; counts = none; workers = 0 } }
{
    Ended {
        status,
        parts,
        counts: ReloadCounts::NONE,
        workers: 0,
    }
}

/// Runs `serve` by its words, and gives the exit status, the parts and the counts: 0 where no connection was left or CONNECTIONS
/// were served, 1 where the configuration doesn't load at first, 2 where the words aren't of `serve`, 3 where a file couldn't be
/// read before the first configuration was there, 4 after a fault of the error output, 5 where memory was wanting, and 7 where the
/// doors failed. It may wait.
pub fn run_proxy<R: Threads + Wait + Sync, F: Files, A: Doors, E: Sink, G: Logs>(
    alloc: Global,
    rt: &R,
    words: &[String],
    parts: DeskParts<F, A, E>,
    logs: &G,
) -> Proxied<F, A, E>
where
    Look: Sees<<<A::Conn as Outside>::Dial as Dialer>::In>,
    requires begun { DoorsBegun (A.state parts.doors) }
    ensures runs { RunsProxy (record { ins = A.Conn.Dial.In.state; outs = A.Conn.Dial.Out.state }) (map string_bytes words.now)
        (record { files = F.state parts.files; doors = A.state parts.doors; errors = E.state parts.err })
        (record { files = F.state result.parts.files; doors = A.state result.parts.doors; errors = E.state result.parts.err }) result.counts result.workers result.status }
{
    let Ended {
        status,
        parts,
        counts,
        workers,
    } = serve_by(alloc, rt, words, parts, logs);
    Proxied {
        status: status.code(),
        parts,
        counts,
        workers,
    }
}

fn serve_by<R: Threads + Wait + Sync, F: Files, A: Doors, E: Sink, G: Logs>(
    alloc: Global,
    rt: &R,
    words: &[String],
    parts: DeskParts<F, A, E>,
    logs: &G,
) -> Ended<F, A, E>
where
    Look: Sees<<<A::Conn as Outside>::Dial as Dialer>::In>,
    requires begun { DoorsBegun (A.state parts.doors) }
    ensures serves { ServesBy (record { ins = A.Conn.Dial.In.state; outs = A.Conn.Dial.Out.state }) (map string_bytes words.now)
        (record { files = F.state parts.files; doors = A.state parts.doors; errors = E.state parts.err })
        (record { files = F.state result.parts.files; doors = A.state result.parts.doors; errors = E.state result.parts.err }) result.counts result.workers result.status }
    ensures goes_on { ProxyGoesOn
        (record { files = F.state parts.files; doors = A.state parts.doors; errors = E.state parts.err })
        (record { files = F.state result.parts.files; doors = A.state result.parts.doors; errors = E.state result.parts.err }) }
{
    match read_serve(words) {
        Some(serve) => match parse_serve(alloc, words, serve) {
            Ok(serve) => run_serve(alloc, rt, serve, parts, logs),
            Err(Mem) => unserved(Status::NoMemory, parts),
        },
        None => {
            let DeskParts {
                files,
                doors,
                mut err,
            } = parts;
            let status = report(&mut err, USAGE, Status::Usage);
            unserved(status, DeskParts { files, doors, err })
        }
    }
}

/// Gathers the files of CONFIG, and gives them with the configuration that they spell.
fn load_set<F: Files>(
    alloc: Global,
    files: &mut F,
    main: &str,
) -> Result<(FileSet, Config), LoadFault>
    ensures set { IsTrue (F.state files.old).tells → IfOk result (λ l. l.0 ≡ gathered (F.state files.old).contents main.now) }
    ensures spells { IfOk result (λ l. Spells l.0 l.1) }
    ensures refused { IsTrue (F.state files.old).tells → IfErr result (IsLoadFault (spelled (gathered (F.state files.old).contents main.now))) }
    ensures named { IsTrue (F.state files.old).tells → IfErr result (ReadsOneOf (names_read (F.state files.old).contents main.now)) }
    ensures cause { LoadCauses (F.state files.old) (F.state files.new) result }
    ensures only_reads { OnlyReads (F.state files.old) (F.state files.new) }
    ensures go_on { FilesGoOn (F.state files.old) (F.state files.new) }
{
    let set = gather(alloc, files, main)?;
    let config = spell(alloc, &set)?;
    Ok((set, config))
}

/// What makes logs, where the first configuration wants them.
fn wanted<'g, G>(logs: &'g G, first: &Config) -> Option<&'g G>
    ensures { is_some result ≡ first.now.settings.access_log }
{
    if first.settings.access_log {
        Some(logs)
    } else {
        None
    }
}

/// Loads CONFIG, listens at its address, and serves.
fn run_serve<R: Threads + Wait + Sync, F: Files, A: Doors, E: Sink, G: Logs>(
    alloc: Global,
    rt: &R,
    serve: ServeWords<'_>,
    parts: DeskParts<F, A, E>,
    logs: &G,
) -> Ended<F, A, E>
where
    Look: Sees<<<A::Conn as Outside>::Dial as Dialer>::In>,
    requires begun { DoorsBegun (A.state parts.doors) }
    requires some { 0 < serve.workers }
    requires at_most { serve.workers ≤ 64 }
    ensures runs { RunsServe (record { ins = A.Conn.Dial.In.state; outs = A.Conn.Dial.Out.state }) serve.entry.config.now serve.entry.most
        (record { files = F.state parts.files; doors = A.state parts.doors; errors = E.state parts.err })
        (record { files = F.state result.parts.files; doors = A.state result.parts.doors; errors = E.state result.parts.err }) result.counts result.status }
    ensures as_many { ServedByAsMany serve.entry.workers (A.state parts.doors) (A.state result.parts.doors) result.workers }
    ensures goes_on { ProxyGoesOn
        (record { files = F.state parts.files; doors = A.state parts.doors; errors = E.state parts.err })
        (record { files = F.state result.parts.files; doors = A.state result.parts.doors; errors = E.state result.parts.err }) }
{
    let DeskParts {
        mut files,
        doors,
        mut err,
    } = parts;
    match load_set(alloc, &mut files, serve.config) {
        Ok((loaded, first)) => {
            let parts = DeskParts { files, doors, err };
            let host = Host {
                rt,
                alloc,
                logs: wanted(logs, &first),
            };
            serve_first(host, serve, loaded, first, parts)
        }
        Err(fault) => {
            let status = report_load(alloc, &mut err, &fault);
            unserved(status, DeskParts { files, doors, err })
        }
    }
}

/// Serves with a configuration that was loaded. Where it says so, the requests of a connection share links to an origin.
fn serve_first<R: Threads + Wait + Sync, F: Files, A: Doors, E: Sink, G: Logs>(
    host: Host<'_, R, G>,
    serve: ServeWords<'_>,
    loaded: FileSet,
    first: Config,
    parts: DeskParts<F, A, E>,
) -> Ended<F, A, E>
where
    Look: Sees<<<A::Conn as Outside>::Dial as Dialer>::In>,
    requires begun { DoorsBegun (A.state parts.doors) }
    requires spells { Spells loaded first }
    requires some { 0 < serve.workers }
    requires at_most { serve.workers ≤ 64 }
    ensures serves { ServesFirst (record { ins = A.Conn.Dial.In.state; outs = A.Conn.Dial.Out.state }) serve.entry.config.now serve.entry.most loaded first
        (record { files = F.state parts.files; doors = A.state parts.doors; errors = E.state parts.err })
        (record { files = F.state result.parts.files; doors = A.state result.parts.doors; errors = E.state result.parts.err }) result.counts result.status }
    ensures as_many { ServedByAsMany serve.entry.workers (A.state parts.doors) (A.state result.parts.doors) result.workers }
    ensures goes_on { ProxyGoesOn
        (record { files = F.state parts.files; doors = A.state parts.doors; errors = E.state parts.err })
        (record { files = F.state result.parts.files; doors = A.state result.parts.doors; errors = E.state result.parts.err }) }
{
    if first.settings.sharing {
        serve_sharing::<Brand, R, F, A, E, G>(host, serve, loaded, first, parts)
    } else {
        serve_loaded(host, serve, loaded, first, parts)
    }
}

/// Serves over doors that give each connection a pool of links, and takes them apart again.
fn serve_sharing<N: Opening + Send, R: Threads + Wait + Sync, F: Files, A: Doors, E: Sink, G: Logs>(
    host: Host<'_, R, G>,
    serve: ServeWords<'_>,
    loaded: FileSet,
    first: Config,
    parts: DeskParts<F, A, E>,
) -> Ended<F, A, E>
where
    Look: Sees<<<A::Conn as Outside>::Dial as Dialer>::In>,
    requires begun { DoorsBegun (A.state parts.doors) }
    requires opening { A.state parts.doors ≡ N.doors }
    requires spells { Spells loaded first }
    requires some { 0 < serve.workers }
    requires at_most { serve.workers ≤ 64 }
    ensures serves { ServesSharing (record { ins = A.Conn.Dial.In.state; outs = A.Conn.Dial.Out.state }) serve.entry.config.now serve.entry.most loaded first
        (record { files = F.state parts.files; doors = A.state parts.doors; errors = E.state parts.err })
        (record { files = F.state result.parts.files; doors = A.state result.parts.doors; errors = E.state result.parts.err }) result.counts result.status }
    ensures as_many { ServedByAsMany serve.entry.workers (A.state parts.doors) (A.state result.parts.doors) result.workers }
    ensures goes_on { ProxyGoesOn
        (record { files = F.state parts.files; doors = A.state parts.doors; errors = E.state parts.err })
        (record { files = F.state result.parts.files; doors = A.state result.parts.doors; errors = E.state result.parts.err }) }
{
    let DeskParts { files, doors, err } = parts;
    let doors = SharedDoors::<A, N>::new(host.alloc, doors);
    let parts = DeskParts { files, doors, err };
    let Ended {
        status,
        parts,
        counts,
        workers,
    } = serve_loaded(host, serve, loaded, first, parts);
    let DeskParts { files, doors, err } = parts;
    let doors = doors.into_inner();
    Ended {
        status,
        parts: DeskParts { files, doors, err },
        counts,
        workers,
    }
}

/// Publishes the first configuration, listens at its address, and serves.
fn serve_loaded<R: Threads + Wait + Sync, F: Files, A: Doors, E: Sink, G: Logs>(
    host: Host<'_, R, G>,
    serve: ServeWords<'_>,
    loaded: FileSet,
    first: Config,
    parts: DeskParts<F, A, E>,
) -> Ended<F, A, E>
    requires begun { DoorsBegun (A.state parts.doors) }
    requires spells { Spells loaded first }
    requires some { 0 < serve.workers }
    requires at_most { serve.workers ≤ 64 }
    ensures serves { ServesLoaded serve.entry.config.now serve.entry.most loaded first
        (record { files = F.state parts.files; doors = A.state parts.doors; errors = E.state parts.err })
        (record { files = F.state result.parts.files; doors = A.state result.parts.doors; errors = E.state result.parts.err }) result.counts result.status }
    ensures as_many { ServedByAsMany serve.entry.workers (A.state parts.doors) (A.state result.parts.doors) result.workers }
    ensures goes_on { ProxyGoesOn
        (record { files = F.state parts.files; doors = A.state parts.doors; errors = E.state parts.err })
        (record { files = F.state result.parts.files; doors = A.state result.parts.doors; errors = E.state result.parts.err }) }
{
    let Host { rt, alloc, logs } = host;
    let settings = &first.settings;
    let listen_host = settings.listen_host.as_bytes();
    let Ok(address) = ListenAddress::copied(alloc, listen_host, settings.listen_port) else {
        return unserved(Status::NoMemory, parts);
    };
    let Ok(first) = Arc::new(alloc, first) else {
        return unserved(Status::NoMemory, parts);
    };
    let Ok((publisher, readers)) = publish_pair(rt, alloc, first, serve.workers) else {
        return unserved(Status::NoMemory, parts);
    };
    let DeskParts {
        files,
        mut doors,
        err,
    } = parts;
    match doors.listen(address) {
        Ok(()) => {
            let parts = DeskParts { files, doors, err };
            let host = Host { rt, alloc, logs };
            serve_published(host, serve, loaded, publisher, readers, parts)
        }
        Err(Failed) => {
            drop(publisher.end(rt));
            unserved(Status::DoorsFailed, DeskParts { files, doors, err })
        }
    }
}

/// Serves at doors that listen, with a published configuration.
fn serve_published<R: Threads + Wait + Sync, F: Files, A: Doors, E: Sink, G: Logs>(
    host: Host<'_, R, G>,
    serve: ServeWords<'_>,
    loaded: FileSet,
    publisher: Publisher<Config>,
    readers: Vec<ConfigReader<Config>>,
    parts: DeskParts<F, A, E>,
) -> Ended<F, A, E>
    requires begun { DoorsBegun (A.state parts.doors) }
    requires first { BeginsWithSpelling loaded (published publisher) }
    requires some { 0 < vec_len readers }
    requires workers { vec_len readers ≡ serve.workers }
    requires at_most { vec_len readers ≤ 64 }
    requires pair { All (λ r. reader_pair r ≡ pair_of publisher) readers.items }
    ensures serves { ServesPublished
        (record { files = F.state parts.files; doors = A.state parts.doors; err = E.state parts.err; main = serve.entry.config.now; loaded = loaded; pair = pair_of publisher; most = serve.entry.most })
        (record { files = F.state result.parts.files; doors = A.state result.parts.doors; errors = E.state result.parts.err }) result.counts result.status }
    ensures as_many { ServedByAsMany serve.entry.workers (A.state parts.doors) (A.state result.parts.doors) result.workers }
{
    match Desk::new(
        host.rt,
        host.alloc,
        parts,
        serve.config,
        loaded,
        publisher,
        serve.most,
    ) {
        Ok(desk) => {
            let (served, workers) = serve_desk(host, desk, readers);
            Ended {
                status: status_of_serving(served.closing),
                parts: served.parts,
                counts: served.counts,
                workers,
            }
        }
        Err(refused) => unserved(Status::NoMemory, refused.parts),
    }
}
