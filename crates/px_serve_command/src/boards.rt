// Serving with a board, on which clients put tags on their own addresses, and with a log, if one is wanted.
ghost use Rattle.std.specs.Prelude.{◌≡◌, ◌<◌, ◌≤◌, [], All, IfNone, vec_capacity, vec_len};
ghost use Rattle.px_publish.specs.Published.{reader_pair};
ghost use Rattle.px_desk.specs.Desks.{StandsAfter, made_of};
ghost use Rattle.px_desk.specs.Facts.{IsClosed};
ghost use Rattle.px_serve_command.specs.Proxies.{ServedByAsMany};

use px_base::{Files, Sink};
use px_config::Config;
use px_desk::{Desk, ServedDesk};
use px_doors::Doors;
use px_pages::BoardPages;
use px_proxy::{ServedAll, serve_all};
use px_publish::ConfigReader;
use px_serve::{Logging, Logs};
use px_tag_board::{BlankBoard, BoardName, Seat, blank_board, board, close};
use std::alloc::Global;
use std::marker::Brand;
use std::sync::Wait;
use std::thread::Threads;

/// What a worker serves with: the pages over its seat, and a log of its own, if one is wanted.
type WorkerInside<'r, N, R, G> = Logging<BoardPages<'r, N, R>, <G as Logs>::Log>;

/// What serving is done with: the runtime, the allocator, and what makes logs, if they are wanted.
#[derive(Drop)]
pub(crate) struct Host<'r, R, G> {
    pub(crate) rt: &'r R,
    pub(crate) alloc: Global,
    pub(crate) logs: Option<&'r G>,
}

/// Pages over each seat, each with a log, if they are wanted. The seats are taken out of their list.
fn insides_over<'r, N: BoardName + Send + Sync, R: Wait + Sync, G: Logs>(
    host: &Host<'r, R, G>,
    seats: &mut Vec<Seat<N>>,
    mut room: Vec<WorkerInside<'r, N, R, G>>,
) -> Vec<WorkerInside<'r, N, R, G>>
    requires empty { vec_len room ≡ 0 }
    requires room { vec_len seats.old ≤ vec_capacity room }
    ensures each { vec_len result ≡ vec_len seats.old }
    ensures taken { vec_len seats.new ≡ 0 }
    ensures capacity { vec_len seats.old ≤ vec_capacity seats.new }
{
    'each: while let Some(seat) = seats.pop() {
        let log = match host.logs {
            Some(logs) => Some(logs.log()),
            None => None,
        };
        room.push_reserved(Logging::new(BoardPages::new(host.rt, seat), log));
    }
    room
}

/// Puts the seats under the pages back into their list.
fn put_back<'r, N: BoardName + Send + Sync, R: Wait + Sync, G: Logs>(
    mut insides: Vec<WorkerInside<'r, N, R, G>>,
    seats: &mut Vec<Seat<N>>,
)
    requires empty { vec_len seats.old ≡ 0 }
    requires room { vec_len insides ≤ vec_capacity seats.old }
    ensures { vec_len seats.new ≡ vec_len insides.entry }
{
    'each: while let Some(inside) = insides.pop() {
        seats.push_reserved(inside.into_inside().into_seat());
    }
    insides.destroy_empty();
}

/// Serves the connections of a desk by a worker for each reader and inside.
fn serve_workers<
    'r,
    N: BoardName + Send + Sync,
    F: Files,
    A: Doors,
    E: Sink,
    R: Threads + Wait + Sync,
    L: Sink + Drop,
>(
    rt: &R,
    alloc: Global,
    desk: Desk<F, A, E>,
    readers: Vec<ConfigReader<Config>>,
    insides: Vec<Logging<BoardPages<'r, N, R>, L>>,
) -> ServedAll<F, A, E, Logging<BoardPages<'r, N, R>, L>>
    requires pair { All (λ r. reader_pair r ≡ desk.pair) readers.items }
    requires none_out { desk.out ≡ [] }
    requires some { 0 < vec_len readers }
    requires one_each { vec_len insides ≡ vec_len readers }
    ensures stands { StandsAfter (made_of F.state A.state E.state desk) (F.state result.desk.parts.files) (A.state result.desk.parts.doors) (E.state result.desk.parts.err) result.desk.counts }
    ensures closes { IsClosed (A.state desk.made_doors) desk.most (A.state result.desk.parts.doors) result.desk.closing }
    ensures unopened { IfNone result.desk.closing (A.state result.desk.parts.doors ≡ A.state desk.doors) }
    ensures back { vec_len result.insides ≡ vec_len insides.entry }
{
    serve_all(rt, alloc, desk, readers, insides)
}

/// Serves the connections of a desk with the board that N names, whose seats go to the workers, and ends the board. Beside what is
/// of the desk, by how many workers it was served.
fn serve_with_board<
    N: BoardName + Send + Sync,
    F: Files,
    A: Doors,
    E: Sink,
    R: Threads + Wait + Sync,
    G: Logs,
>(
    host: Host<'_, R, G>,
    blank: BlankBoard,
    desk: Desk<F, A, E>,
    readers: Vec<ConfigReader<Config>>,
) -> (ServedDesk<F, A, E>, u64)
    requires name { blank ≡ record { name = N.name; seats = N.parts; pair = N.pair } }
    requires one_each { blank.seats ≡ vec_len readers }
    requires pair { All (λ r. reader_pair r ≡ desk.pair) readers.items }
    requires none_out { desk.out ≡ [] }
    requires some { 0 < vec_len readers }
    ensures stands { StandsAfter (made_of F.state A.state E.state desk) (F.state result.0.parts.files) (A.state result.0.parts.doors) (E.state result.0.parts.err) result.0.counts }
    ensures closes { IsClosed (A.state desk.made_doors) desk.most (A.state result.0.parts.doors) result.0.closing }
    ensures unopened { IfNone result.0.closing (A.state result.0.parts.doors ≡ A.state desk.doors) }
    ensures as_many { ServedByAsMany (vec_len readers) (A.state desk.doors) (A.state result.0.parts.doors) result.1 }
{
    let rt = host.rt;
    let alloc = host.alloc;
    let Ok(mut seats) = board::<N, R>(rt, blank) else {
        return (desk.into_parts(rt), 0);
    };
    let Ok(room) = Vec::with_capacity(alloc, seats.len()) else {
        close(rt, seats);
        return (desk.into_parts(rt), 0);
    };
    let insides = insides_over(&host, &mut seats, room);
    let ServedAll { desk, insides } = serve_workers(rt, alloc, desk, readers, insides);
    put_back::<N, R, G>(insides, &mut seats);
    let workers = if desk.closing.is_some() {
        seats.len() as u64
    } else {
        0
    };
    close(rt, seats);
    (desk, workers)
}

/// Serves the connections of a desk by one worker for each reader, whose clients have the tags of a board that begins empty and
/// ends with the serving. Where the desk didn't close, memory was wanting for the board or the workers, and the doors are as they
/// were. Beside what is of the desk, by how many workers it was served.
pub(crate) fn serve_desk<F: Files, A: Doors, E: Sink, R: Threads + Wait + Sync, G: Logs>(
    host: Host<'_, R, G>,
    desk: Desk<F, A, E>,
    readers: Vec<ConfigReader<Config>>,
) -> (ServedDesk<F, A, E>, u64)
    requires pair { All (λ r. reader_pair r ≡ desk.pair) readers.items }
    requires none_out { desk.out ≡ [] }
    requires some { 0 < vec_len readers }
    requires at_most { vec_len readers ≤ 64 }
    ensures stands { StandsAfter (made_of F.state A.state E.state desk) (F.state result.0.parts.files) (A.state result.0.parts.doors) (E.state result.0.parts.err) result.0.counts }
    ensures closes { IsClosed (A.state desk.made_doors) desk.most (A.state result.0.parts.doors) result.0.closing }
    ensures unopened { IfNone result.0.closing (A.state result.0.parts.doors ≡ A.state desk.doors) }
    ensures as_many { ServedByAsMany (vec_len readers) (A.state desk.doors) (A.state result.0.parts.doors) result.1 }
{
    let Ok(blank) = blank_board(host.rt, host.alloc, readers.len() as u32) else {
        return (desk.into_parts(host.rt), 0);
    };
    serve_with_board::<Brand, F, A, E, R, G>(host, blank, desk, readers)
}
