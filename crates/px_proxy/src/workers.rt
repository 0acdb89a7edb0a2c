// Workers that share a desk.
ghost use denote.Param.Send.{IsSend};
ghost use Rattle.std.specs.Prelude.{◌≡◌, ◌≢◌, ◌+◌, ◌<◌, ◌≤◌, [], None, length, vec_capacity, vec_len, IfSome, IfNone, OnErr, OnOk, IfErr, IfOk, IsTrue, All};
ghost use Rattle.px_publish.specs.Published.{seen_by, reader_pair};
ghost use Rattle.px_doors.specs.Doors.{DoorsState};
ghost use Rattle.px_desk.specs.Facts.{IsClosed, Made, IsOut, DeskStands};
ghost use Rattle.px_publish.specs.Views.{GoesOn};
ghost use Rattle.px_desk.specs.Sessions.{IsNth, IsConnServed};
ghost use Rattle.px_pages.specs.Boards.{BoardLaw};
ghost use Rattle.px_serve.specs.Keeping.{IsStored};
ghost use Rattle.px_desk.specs.Desks.{made_of, StandsAfter};
ghost use Rattle.px_proxy.specs.Laws.{IsWithinLaw};
ghost use Rattle.px_proxy.specs.Ways.{IsAtOnce};

use px_base::{Files, Mem, Sink};
use px_config::{Config, Inside};
use px_desk::{Desk, HandedConn, ServeEnd, ServedDesk};
use px_doors::{Doors, Parted};
use px_ends::{Ends, Outside};
use px_publish::{ConfigReader, Configs, CountFull};
use px_serve::{Store, serve_connection};
use px_ways::Way;
use std::alloc::Global;
use std::marker::Brand;
use std::sync::ledger::{Blank, Book, Ledger, Share};
use std::sync::{Mutex, MutexGuard, Wait};
use std::thread;
use std::thread::Threads;

/// What each holding of a desk's lock agrees on: how the desk was made. Each call of `serve_all` picks it.
pub trait Making: Ledger {
    ghost made: { Made };
}

impl Making for Brand {
    ghost use Rattle.std.specs.Prelude.{[], None};
    ghost use Rattle.px_base.specs.Contents.{untold_files};
    ghost use Rattle.px_base.specs.Sinks.{untold_sink};
    ghost use Rattle.px_doors.specs.Doors.{untold_doors};

    ghost made = { record {
      files = untold_files 0 0 0 0 0;
      doors = untold_doors None 0 0;
      err = untold_sink 0 0;
      main = [];
      loaded = record { main = []; items = []; lists = [] };
      pair = record { number = 0; log_name = 0; cells_name = 0 };
      most = 0;
    } };
}

/// A desk, with a book of the connections that are out, and one of the workers that were told that no more come. While the desk
/// isn't closed no worker was told so.
struct Shared<N: Making, L: Ledger, F: Files, A: Doors, E: Sink> {
    desk: Desk<F, A, E>,
    out: Book<N>,
    told: Book<L>,
    ghost made: { made_of F.state A.state E.state desk ≡ N.made },
    ghost counted: { out.total ≡ length desk.out },
    ghost open: { desk.closing ≡ None → told.total ≡ 0 },
}

/// A worker's shares of both books: the connections that it has out, and how often it was told that no more come.
#[derive(Drop)]
struct Shares<N: Ledger, L: Ledger> {
    out: Share<N>,
    told: Share<L>,
    ghost one_out: { out.parts ≡ 1 },
    ghost one_told: { told.parts ≡ 1 },
}

/// A worker: its shares of both books, the reader by which it sees the configurations, and the inside that gives its clients
/// their tags and the proxy's own pages.
struct Worker<N: Making, L: Ledger, I: Inside> {
    mine: Shares<N, L>,
    reader: ConfigReader<Config>,
    inside: I,
    ghost pair: { reader_pair reader ≡ N.made.pair },
    ghost lawful: { IsWithinLaw I.lawful BoardLaw },
}

/// A worker between two connections.
struct IdleWorker<N: Making, L: Ledger, I: Inside> {
    worker: Worker<N, L, I>,
    ghost idle: { worker.mine.out.amount ≡ 0 },
}

/// What is handed back of serving: what is of the desk, and the workers' insides.
#[derive(Drop)]
pub struct ServedAll<F, A, E, I> {
    pub desk: ServedDesk<F, A, E>,
    pub insides: Vec<I>,
}

/// A connection to serve: its number, that of the entry with which it was handed out, and its ends.
struct Task<A: Outside> {
    number: u64,
    handed: u64,
    ends: Ends<A>,
}

/// Serves a connection with what an inside gives, by a reader that has learnt the entry with which it was handed out, and gives it
/// back with its session.
fn served<N: Making, R: Threads + Sync, A: Outside, I: Inside>(
    alloc: Global,
    way: &Way<'_, R>,
    store: &mut Store<'_>,
    reader: &mut ConfigReader<Config>,
    inside: &mut I,
    task: Task<A>,
) -> Parted<A>
    requires lawful { IsWithinLaw I.lawful BoardLaw }
    requires at_once { IsAtOnce way.now }
    requires pair { reader_pair reader.old ≡ N.made.pair }
    requires stored { IsStored (seen_by reader.old) store.old }
    requires learnt { task.handed < length (seen_by reader.old) }
    requires nth { IsNth N.made.doors.tells N.made.doors.conns task.number task.ends }
    ensures pair { reader_pair reader.new ≡ N.made.pair }
    ensures served { IsConnServed N.made.doors.tells N.made.doors.conns (seen_by reader.new) result }
    ensures stored { IsStored (seen_by reader.new) store.new }
{
    let Task {
        number,
        handed,
        mut ends,
    } = task;
    let session = serve_connection(alloc, way, store, reader, inside, &mut ends);
    Parted {
        number,
        handed,
        session,
        ends,
    }
}

/// What is to be served of a connection that was handed out, once its receipt is learnt.
fn task_of<N: Making, A: Outside>(
    reader: &mut ConfigReader<Config>,
    handed: HandedConn<A>,
) -> Task<A>
    requires pair { reader_pair reader.old ≡ N.made.pair }
    requires receipt_pair { handed.pair ≡ N.made.pair }
    ensures pair { reader_pair reader.new ≡ N.made.pair }
    ensures handed { length handed.told ≡ result.handed + 1 }
    ensures learnt { result.handed < length (seen_by reader.new) }
    ensures on { GoesOn (seen_by reader.old) (seen_by reader.new) }
    ensures number { result.number ≡ handed.number }
    ensures ends { result.ends ≡ handed.ends }
{
    let HandedConn {
        number,
        reload: _,
        receipt,
        ends,
    } = handed;
    let handed = receipt.snapshot().number;
    reader.learn(receipt);
    Task {
        number,
        handed,
        ends,
    }
}

impl<N: Making, L: Ledger, F: Files, A: Doors, E: Sink> Shared<N, L, F, A, E> {
    /// Takes the next connection.
    fn next<R: Wait>(
        &mut self,
        rt: &R,
        mine: &mut Shares<N, L>,
    ) -> Result<HandedConn<A::Conn>, ServeEnd>
        ensures conn { IfOk result (λ h. mine.new.out.amount ≡ mine.old.out.amount + 1) }
        ensures nth { IfOk result (λ h. IsNth N.made.doors.tells N.made.doors.conns h.number h.ends) }
        ensures pair { IfOk result (λ h. h.pair ≡ N.made.pair) }
        ensures closed { IfErr result (λ _. mine.new.out.amount ≡ mine.old.out.amount) }
        ensures told { IfErr result (λ _. 0 < mine.new.told.amount) }
    {
        let Shared { desk, out, told } = self;
        match desk.next(rt) {
            Ok(handed) => {
                out.add(&mut mine.out, 1);
                Ok(handed)
            }
            Err(closing) => {
                told.add(&mut mine.told, 1);
                Err(closing)
            }
        }
    }

    /// Whether the connection can be taken back.
    fn covers(&self, number: u64, handed: u64, reader: &ConfigReader<Config>) -> bool
        requires pair { reader_pair reader.now ≡ N.made.pair }
        ensures out { IsTrue result → IsOut (record { number = number; handed = handed }) self.now.desk.out }
        ensures prefix { IsTrue result → GoesOn (seen_by reader.now) self.now.desk.list }
    {
        self.desk.covers(number, handed, reader)
    }

    /// Takes a connection back.
    fn part(&mut self, mine: &mut Shares<N, L>, parted: Parted<A::Conn>)
        requires out { IsOut (record { number = parted.number; handed = parted.handed }) self.old.desk.out }
        requires served { IsConnServed N.made.doors.tells N.made.doors.conns self.old.desk.list parted }
        requires one { 0 < mine.old.out.amount }
        ensures amount { mine.new.out.amount + 1 ≡ mine.old.out.amount }
    {
        let Shared { desk, out, told: _ } = self;
        desk.part(parted);
        out.sub(&mut mine.out, 1);
    }

    /// The desk, once every share is back, none has a connection, and a worker was told that no more come.
    fn finish(self, all: &mut AllShares<N, L>) -> Desk<F, A, E>
        requires whole_out { all.old.out.parts ≡ N.parts }
        requires whole_told { all.old.told.parts ≡ L.parts }
        requires idle { all.old.out.amount ≡ 0 }
        requires told { 0 < all.old.told.amount }
        ensures made { made_of F.state A.state E.state result ≡ N.made }
        ensures none_out { result.out ≡ [] }
        ensures closed { result.closing ≢ None }
    {
        let Shared {
            desk,
            mut out,
            mut told,
        } = self;
        out.audit(&mut all.out);
        told.audit(&mut all.told);
        desk
    }
}

/// Takes the next connection from a desk that others use too, and learns its receipt.
fn take<N: Making, L: Ledger, F: Files, A: Doors, E: Sink, R: Wait>(
    rt: &R,
    shared: &Mutex<Shared<N, L, F, A, E>>,
    mine: &mut Shares<N, L>,
    reader: &mut ConfigReader<Config>,
) -> Option<Task<A::Conn>>
    requires pair { reader_pair reader.old ≡ N.made.pair }
    ensures pair { reader_pair reader.new ≡ N.made.pair }
    ensures on { GoesOn (seen_by reader.old) (seen_by reader.new) }
    ensures counted { IfSome result (λ _. mine.new.out.amount ≡ mine.old.out.amount + 1) }
    ensures closed { IfNone result (mine.new.out.amount ≡ mine.old.out.amount) }
    ensures told { IfNone result (0 < mine.new.told.amount) }
    ensures nth { IfSome result (λ task. IsNth N.made.doors.tells N.made.doors.conns task.number task.ends) }
    ensures learnt { IfSome result (λ task. task.handed < length (seen_by reader.new)) }
{
    let mut desk = shared.lock(rt);
    let next = desk.next(rt, mine);
    MutexGuard::unlock(desk);
    match next {
        Ok(handed) => Some(task_of::<N, A::Conn>(reader, handed)),
        Err(_closing) => None,
    }
}

/// Gives a connection back to a desk that others use too.
fn give_back<N: Making, L: Ledger, F: Files, A: Doors, E: Sink, R: Wait>(
    rt: &R,
    shared: &Mutex<Shared<N, L, F, A, E>>,
    mine: &mut Shares<N, L>,
    reader: &ConfigReader<Config>,
    parted: Parted<A::Conn>,
)
    requires pair { reader_pair reader.now ≡ N.made.pair }
    requires served { IsConnServed N.made.doors.tells N.made.doors.conns (seen_by reader.now) parted }
    requires one { 0 < mine.old.out.amount }
    ensures amount { mine.new.out.amount + 1 ≡ mine.old.out.amount }
{
    'again: for _ in rt.forever() {
        let mut desk = shared.lock(rt);
        if desk.covers(parted.number, parted.handed, reader) {
            desk.part(mine, parted);
            MutexGuard::unlock(desk);
            return;
        }
        MutexGuard::unlock(desk);
    }
    unreachable!()
}

/// Lets go of what a connection that was served holds of the system: its client's socket, and the links that its dialer keeps. It
/// is done before the desk is asked for, which a worker may hold while it waits for the next client.
fn let_go<A: Doors>(parted: &mut Parted<A::Conn>)
    ensures same { parted.new ≡ parted.old }
{
    A::leave(&mut parted.ends.client.source, &mut parted.ends.client_out);
    A::rest(&mut parted.ends.dialer);
}

/// Serves connections with one store, as long as they are handed out with its entry. Gives the first that isn't, if one comes.
fn serve_while_stored<
    N: Making,
    L: Ledger,
    F: Files,
    A: Doors,
    E: Sink,
    I: Inside,
    R: Threads + Wait + Sync,
>(
    rt: &R,
    alloc: Global,
    shared: &Mutex<Shared<N, L, F, A, E>>,
    worker: &mut Worker<N, L, I>,
    store: &mut Store<'_>,
    task: Task<A::Conn>,
) -> Option<Task<A::Conn>>
    requires one { worker.old.mine.out.amount ≡ 1 }
    requires stored { IsStored (seen_by worker.old.reader) store.old }
    requires nth { IsNth N.made.doors.tells N.made.doors.conns task.number task.ends }
    requires learnt { task.handed < length (seen_by worker.old.reader) }
    ensures counted { IfSome result (λ _. worker.new.mine.out.amount ≡ 1) }
    ensures closed { IfNone result (worker.new.mine.out.amount ≡ 0) }
    ensures told { IfNone result (0 < worker.new.mine.told.amount) }
    ensures nth { IfSome result (λ task. IsNth N.made.doors.tells N.made.doors.conns task.number task.ends) }
    ensures learnt { IfSome result (λ task. task.handed < length (seen_by worker.new.reader)) }
{
    let Worker {
        mine,
        reader,
        inside,
    } = worker;
    let way = Way::AtOnce(rt);
    let mut task = task;
    'same: for _ in rt.forever() {
        let mut parted = served::<N, R, A::Conn, I>(alloc, &way, store, reader, inside, task);
        let_go::<A>(&mut parted);
        give_back(rt, shared, mine, reader, parted);
        match take(rt, shared, mine, reader) {
            Some(next) => {
                if !store.is_of(next.handed) {
                    return Some(next);
                }
                task = next;
            }
            None => return None,
        }
    }
    unreachable!()
}

/// Serves a connection, and those behind it that are handed out with the same entry, with a store of that entry. Gives the first
/// that isn't, if one comes.
fn serve_entry<
    N: Making,
    L: Ledger,
    F: Files,
    A: Doors,
    E: Sink,
    I: Inside,
    R: Threads + Wait + Sync,
>(
    rt: &R,
    alloc: Global,
    shared: &Mutex<Shared<N, L, F, A, E>>,
    worker: &mut Worker<N, L, I>,
    task: Task<A::Conn>,
) -> Option<Task<A::Conn>>
    requires one { worker.old.mine.out.amount ≡ 1 }
    requires nth { IsNth N.made.doors.tells N.made.doors.conns task.number task.ends }
    requires learnt { task.handed < length (seen_by worker.old.reader) }
    ensures counted { IfSome result (λ _. worker.new.mine.out.amount ≡ 1) }
    ensures closed { IfNone result (worker.new.mine.out.amount ≡ 0) }
    ensures told { IfNone result (0 < worker.new.mine.told.amount) }
    ensures nth { IfSome result (λ task. IsNth N.made.doors.tells N.made.doors.conns task.number task.ends) }
    ensures learnt { IfSome result (λ task. task.handed < length (seen_by worker.new.reader)) }
{
    let number = worker.reader.current().number;
    match worker.reader.owner() {
        Ok(owner) => {
            let mut store = Store::new(alloc, number, &owner);
            serve_while_stored(rt, alloc, shared, worker, &mut store, task)
        }
        Err(CountFull) => {
            let mut store = Store::Wanting;
            serve_while_stored(rt, alloc, shared, worker, &mut store, task)
        }
    }
}

/// Serves one connection after another, until the desk says that no more come.
fn serve_each<
    N: Making,
    L: Ledger,
    F: Files,
    A: Doors,
    E: Sink,
    I: Inside,
    R: Threads + Wait + Sync,
>(rt: &R, alloc: Global, shared: &Mutex<Shared<N, L, F, A, E>>, worker: &mut Worker<N, L, I>)
    requires idle { worker.old.mine.out.amount ≡ 0 }
    ensures idle { worker.new.mine.out.amount ≡ 0 }
    ensures told { 0 < worker.new.mine.told.amount }
{
    let mut next = take(rt, shared, &mut worker.mine, &mut worker.reader);
    'more: for _ in rt.forever() {
        match next {
            Some(task) => next = serve_entry(rt, alloc, shared, worker, task),
            None => return,
        }
    }
    unreachable!()
}

/// Lets a worker serve until the desk says that no more connections come.
fn work<N: Making, L: Ledger, F: Files, A: Doors, E: Sink, I: Inside, R: Threads + Wait + Sync>(
    rt: &R,
    alloc: Global,
    shared: &Mutex<Shared<N, L, F, A, E>>,
    idle: &mut IdleWorker<N, L, I>,
)
    ensures told { 0 < idle.new.worker.mine.told.amount }
{
    let IdleWorker { worker } = idle;
    serve_each(rt, alloc, shared, worker);
}

/// What no worker has of both books.
#[derive(Drop)]
struct AllShares<N: Ledger, L: Ledger> {
    out: Share<N>,
    told: Share<L>,
}

/// A worker for each reader, with one of the insides, which are taken out of their list. For want of memory they stay there.
fn cut<N: Making, L: Ledger, I: Inside>(
    alloc: Global,
    all: &mut AllShares<N, L>,
    mut readers: Vec<ConfigReader<Config>>,
    insides: &mut Vec<I>,
) -> Result<Vec<IdleWorker<N, L, I>>, Mem>
    requires lawful { IsWithinLaw I.lawful BoardLaw }
    requires one_each { vec_len insides.old ≡ vec_len readers }
    requires pair { All (λ r. reader_pair r ≡ N.made.pair) readers.items }
    requires parts_out { all.old.out.parts ≡ vec_len readers }
    requires parts_told { all.old.told.parts ≡ vec_len readers }
    requires idle { all.old.out.amount ≡ 0 }
    requires none_told { all.old.told.amount ≡ 0 }
    ensures none_out { OnOk result ((all.new.out.parts ≡ 0) × (all.new.out.amount ≡ 0)) }
    ensures none_told { OnOk result ((all.new.told.parts ≡ 0) × (all.new.told.amount ≡ 0)) }
    ensures each { IfOk result (λ v. vec_len v ≡ vec_len readers) }
    ensures taken { OnOk result (vec_len insides.new ≡ 0) }
    ensures room { IfOk result (λ v. vec_len v ≤ vec_capacity insides.new) }
    ensures kept { OnErr result (vec_len insides.new ≡ vec_len insides.old) }
{
    let mut workers = Vec::with_capacity(alloc, readers.len())?;
    'each: while let Some(reader) = readers.pop() {
        let Some(inside) = insides.pop() else {
            unreachable!()
        };
        let mine = Shares {
            out: all.out.split_off(1, 0),
            told: all.told.split_off(1, 0),
        };
        let worker = Worker {
            mine,
            reader,
            inside,
        };
        workers.push_reserved(IdleWorker { worker });
    }
    Ok(workers)
}

/// Puts the parts together, and the insides back into their list.
fn gather<N: Making, L: Ledger, I: Inside>(
    all: &mut AllShares<N, L>,
    mut workers: Vec<IdleWorker<N, L, I>>,
    insides: &mut Vec<I>,
)
    requires none { all.old.out.amount ≡ 0 }
    requires told { All (λ w. 0 < w.worker.mine.told.amount) workers.items }
    requires empty { vec_len insides.old ≡ 0 }
    requires room { vec_len workers ≤ vec_capacity insides.old }
    ensures parts_out { all.new.out.parts ≡ all.old.out.parts + vec_len workers }
    ensures parts_told { all.new.told.parts ≡ all.old.told.parts + vec_len workers }
    ensures idle { all.new.out.amount ≡ 0 }
    ensures told { 0 < vec_len workers → 0 < all.new.told.amount }
    ensures back { vec_len insides.new ≡ vec_len workers }
{
    'next: while let Some(idle) = workers.pop() {
        let IdleWorker { worker } = idle;
        let Worker {
            mine,
            reader: _,
            inside,
        } = worker;
        let Shares { out, told } = mine;
        all.out.merge(out);
        all.told.merge(told);
        insides.push_reserved(inside);
    }
    workers.destroy_empty();
}

/// Runs each worker in a thread of its own.
fn work_all<
    N: Making + Send + Sync,
    L: Ledger + Send + Sync,
    F: Files,
    A: Doors,
    E: Sink,
    I: Inside,
    R: Threads + Wait + Sync,
>(
    rt: &R,
    alloc: &Global,
    shared: &Mutex<Shared<N, L, F, A, E>>,
    workers: &mut [IdleWorker<N, L, I>],
    threads: usize,
)
    requires some { 0 < length workers.old }
    requires each { threads ≡ length workers.old }
    ensures told { All (λ w. 0 < w.worker.mine.told.amount) workers.new }
{
    thread::for_each_mut(
        rt,
        workers,
        threads,
        &|_, idle: &mut IdleWorker<N, L, I>|
            requires { IsSend F.row × IsSend A.row × IsSend E.row × IsSend I.row × IsSend A.Conn.In.row × IsSend A.Conn.Out.row × IsSend A.Conn.Dial.row × IsSend A.Conn.Time.row × IsSend A.Conn.Dial.In.row × IsSend A.Conn.Dial.Out.row }
            ensures { 0 < idle.exit.now.worker.mine.told.amount }
        { work(rt, *alloc, shared, idle) },
    );
}

/// Runs the workers, and takes the desk and the insides back.
fn run<
    N: Making + Send + Sync,
    L: Ledger + Send + Sync,
    F: Files,
    A: Doors,
    E: Sink,
    I: Inside,
    R: Threads + Wait + Sync,
>(
    rt: &R,
    alloc: Global,
    shared: Shared<N, L, F, A, E>,
    mut all: AllShares<N, L>,
    mut workers: Vec<IdleWorker<N, L, I>>,
    insides: &mut Vec<I>,
) -> Desk<F, A, E>
    requires all_out { (all.out.parts ≡ 0) × (all.out.amount ≡ 0) }
    requires all_told { (all.told.parts ≡ 0) × (all.told.amount ≡ 0) }
    requires parts_out { vec_len workers ≡ N.parts }
    requires parts_told { vec_len workers ≡ L.parts }
    requires some { 0 < vec_len workers }
    requires empty { vec_len insides.old ≡ 0 }
    requires room { vec_len workers ≤ vec_capacity insides.old }
    ensures made { made_of F.state A.state E.state result ≡ N.made }
    ensures none_out { result.out ≡ [] }
    ensures closed { result.closing ≢ None }
    ensures back { vec_len insides.new ≡ vec_len workers }
{
    let shared = Mutex::new(shared);
    let threads = workers.len();
    work_all(rt, &alloc, &shared, workers.as_mut_slice(), threads);
    gather(&mut all, workers, insides);
    shared.into_inner().finish(&mut all)
}

/// Serves the connections of a desk under two ledgers that were picked for it. The insides are lent.
fn serve_named<
    N: Making + Send + Sync,
    L: Ledger + Send + Sync,
    F: Files,
    A: Doors,
    E: Sink,
    I: Inside,
    R: Threads + Wait + Sync,
>(
    rt: &R,
    alloc: Global,
    desk: Desk<F, A, E>,
    readers: Vec<ConfigReader<Config>>,
    insides: &mut Vec<I>,
    out: Blank,
    told: Blank,
) -> ServedDesk<F, A, E>
    requires name_out { out.name ≡ N.name }
    requires parts_out { out.parts ≡ N.parts }
    requires count_out { out.parts ≡ vec_len readers }
    requires name_told { told.name ≡ L.name }
    requires parts_told { told.parts ≡ L.parts }
    requires count_told { told.parts ≡ vec_len readers }
    requires made { made_of F.state A.state E.state desk ≡ N.made }
    requires pair { All (λ r. reader_pair r ≡ desk.pair) readers.items }
    requires none_out { desk.out ≡ [] }
    requires some { 0 < vec_len readers }
    requires lawful { IsWithinLaw I.lawful BoardLaw }
    requires one_each { vec_len insides.old ≡ vec_len readers }
    ensures stands { StandsAfter (made_of F.state A.state E.state desk) (F.state result.parts.files) (A.state result.parts.doors) (E.state result.parts.err) result.counts }
    ensures closes { IsClosed (A.state desk.made_doors) desk.most (A.state result.parts.doors) result.closing }
    ensures unopened { IfNone result.closing (A.state result.parts.doors ≡ A.state desk.doors) }
    ensures back { vec_len insides.new ≡ vec_len insides.old }
{
    let (out, all_out) = out.open::<N>();
    let (told, all_told) = told.open::<L>();
    let mut all = AllShares {
        out: all_out,
        told: all_told,
    };
    match cut(alloc, &mut all, readers, insides) {
        Ok(workers) => {
            let shared = Shared { desk, out, told };
            run(rt, alloc, shared, all, workers, insides).into_parts(rt)
        }
        Err(Mem) => desk.into_parts(rt),
    }
}

/// Serves the connections of a desk that has none out, by one worker for each reader and inside, which serves until the desk says
/// that no more come. Each taking is one of its worker's inside, and so by the law of pages over a board. Afterwards each
/// connection was parted once, and the insides come back, as many as were given. Where the desk didn't close, memory was wanting
/// for the workers, and the doors are as they were. It may wait.
pub fn serve_all<F: Files, A: Doors, E: Sink, I: Inside, R: Threads + Wait + Sync>(
    rt: &R,
    alloc: Global,
    desk: Desk<F, A, E>,
    readers: Vec<ConfigReader<Config>>,
    mut insides: Vec<I>,
) -> ServedAll<F, A, E, I>
    requires pair { All (λ r. reader_pair r ≡ desk.pair) readers.items }
    requires none_out { desk.out ≡ [] }
    requires some { 0 < vec_len readers }
    requires one_each { vec_len insides ≡ vec_len readers }
    requires lawful { IsWithinLaw I.lawful BoardLaw }
    ensures stands { StandsAfter (made_of F.state A.state E.state desk) (F.state result.desk.parts.files) (A.state result.desk.parts.doors) (E.state result.desk.parts.err) result.desk.counts }
    ensures closes { IsClosed (A.state desk.made_doors) desk.most (A.state result.desk.parts.doors) result.desk.closing }
    ensures unopened { IfNone result.desk.closing (A.state result.desk.parts.doors ≡ A.state desk.doors) }
    ensures back { vec_len result.insides ≡ vec_len insides }
{
    let out = Blank::new(readers.len() as u64);
    let told = Blank::new(readers.len() as u64);
    let desk = serve_named::<Brand, Brand, F, A, E, I, R>(
        rt,
        alloc,
        desk,
        readers,
        &mut insides,
        out,
        told,
    );
    ServedAll { desk, insides }
}
