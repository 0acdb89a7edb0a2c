// The desk: it takes connections from the doors, reloads, keeps which connections are out, and takes them back.
ghost use Rattle.std.specs.Prelude.{IfOk, None, IsTrue, ◌↔◌, ◌≤◌, length, ◌≡◌, ◌+◌, ◌<◌, ◌-◌, ◌^◌, ◌∷◌, [], Some, IfErr, Err, MatchOption, string_bytes};
ghost use Rattle.px_base.specs.Contents.{FilesState};
ghost use Rattle.px_publish.specs.Published.{published, pair_of, told_by, receipt_pair, seen_by, reader_pair};
ghost use Rattle.px_publish.specs.Views.{GoesOn};
ghost use Rattle.px_desk.specs.Sessions.{IsConnServed};
ghost use Rattle.px_desk.specs.Reloads.{loader_as};
ghost use Rattle.px_desk.specs.Facts.{DeskStands, DoorsBegun, IsClosed, IsOut, total};
ghost use Rattle.px_desk.specs.Counts.{with_reload};
ghost use Rattle.px_desk.specs.Turns.{none};
ghost use Rattle.px_desk.specs.declared.desks.ServeEnd.TheVariants.{DoorsFailed, NoMemory};
ghost use Rattle.px_base.specs.Causes.{Rose};

use crate::loaders::Loader;
use crate::outs::{Out, place_of, take_off};
use crate::reloads::{Reload, ReloadCounts};
use px_base::{Files, Sink};
use px_config::{Config, FileSet, LoadFault};
use px_doors::{AcceptFault, Doors, Parted};
use px_ends::{Ends, Outside};
use px_publish::{ConfigReader, Publisher, Receipt};
use std::alloc::Global;
use std::marker::Model;
use std::snapshot::Snapshot;
use std::sync::Wait;

/// Why no more connections come.
#[derive(Clone, Copy, Debug, PartialEq, Eq)]
pub enum ServeEnd {
    /// No connection was left, or as many were accepted as may be.
    End,
    /// The doors' count of faults rose.
    DoorsFailed,
    NoMemory,
}

/// A connection that is handed out, seen by the states of its ends and by what its receipt tells, and what its reload gave.
pub struct HandedConn<A: Outside> {
    pub number: u64,
    pub reload: Reload,
    pub receipt: Receipt<Config>,
    pub ends: Ends<A>,
}

impl<A: Outside> Model for HandedConn<A> {
    ghost use Rattle.px_publish.specs.Published.{told_by, receipt_pair};
    ghost use Rattle.px_desk.specs.Desks.{HandedState};

    ghost Value = { HandedState };

    ghost view = { λ h. record { number = h.number; reload = h.reload; told = told_by h.receipt; pair = receipt_pair h.receipt; ends = h.ends } };
}

/// What a desk is made of.
#[derive(Drop)]
pub struct DeskParts<F, A, E> {
    pub files: F,
    pub doors: A,
    pub err: E,
}

/// Memory was wanting for a desk.
#[derive(Drop)]
pub struct NoDesk<F, A, E> {
    pub parts: DeskParts<F, A, E>,
}

/// What is handed back of a desk.
#[derive(Drop)]
pub struct ServedDesk<F, A, E> {
    pub parts: DeskParts<F, A, E>,
    pub counts: ReloadCounts,
    /// Why no more connections came, if the desk was asked for as many as came.
    pub closing: Option<ServeEnd>,
}

/// The doors, the files and the publisher, with the numbers of the connections that are out: handed out and not yet taken back.
/// `facts` of the contracts hold at each time, over the doors, the files and the error sink as they were at its making.
pub struct Desk<F: Files, A: Doors, E: Sink> {
    pub(crate) loader: Loader<F, E>,
    pub(crate) doors: A,
    pub(crate) out: Vec<Out>,
    pub(crate) counts: ReloadCounts,
    accepted: u64,
    most: u64,
    closing: Option<ServeEnd>,
    // As the desk was made.
    pub(crate) made_files: Snapshot<F>,
    pub(crate) made_doors: Snapshot<A>,
    pub(crate) made_err: Snapshot<E>,
    pub(crate) made_main: Snapshot<String>,
    pub(crate) loaded: Snapshot<FileSet>,
}

impl<F: Files, A: Doors, E: Sink> Model for Desk<F, A, E> {
    ghost use Rattle.std.specs.Prelude.{◌≡◌, Some, string_bytes};
    ghost use Rattle.px_base.specs.Causes.{Rose};
    ghost use Rattle.px_publish.specs.Published.{published, pair_of};
    ghost use Rattle.px_desk.specs.Facts.{DeskStands, IsClosed};
    ghost use Rattle.px_desk.specs.Reloads.{IsCurrent, loader_as};
    ghost use Rattle.px_desk.specs.Desks.{DeskState};
    ghost use Rattle.px_desk.specs.declared.desks.ServeEnd.TheVariants.{DoorsFailed};

    ghost Value = { DeskState F A E };

    ghost view = { λ s. record {
      files = s.loader.files;
      doors = s.doors;
      err = s.loader.err;
      main = string_bytes s.loader.main;
      remembered = s.loader.remembered;
      list = published s.loader.publisher;
      pair = pair_of s.loader.publisher;
      out = s.out.items;
      counts = s.counts;
      closing = s.closing;
      made_files = s.made_files.value;
      made_doors = s.made_doors.value;
      made_err = s.made_err.value;
      made_main = string_bytes s.made_main.value;
      loaded = s.loaded.value;
      most = s.most;
    } };

    ghost invariant = { λ s.
        DeskStands
        (record { files = F.state s.made_files.value; doors = A.state s.made_doors.value; err = E.state s.made_err.value; main = string_bytes s.made_main.value; loaded = s.loaded.value; pair = pair_of s.loader.publisher; most = s.most })
        (record { loader = loader_as F.state E.state s.loader; doors = A.state s.doors; out = s.out.items; counts = s.counts })
        × (s.accepted ≡ (A.state s.doors).accepted)
        × IsClosed (A.state s.made_doors.value) s.most (A.state s.doors) s.closing
        × IsCurrent s.loader.current (loader_as F.state E.state s.loader) };
}

// One reload more.
fn counted(counts: ReloadCounts, reload: &Reload) -> ReloadCounts
    requires { total counts < 2 ^ 64 - 1 }
    ensures { result ≡ with_reload counts reload.now }
{
    let mut counts = counts;
    match reload {
        Reload::Same => counts.same += 1,
        Reload::Published(_) => counts.published += 1,
        Reload::Kept(LoadFault::Read { .. }) => counts.read_faults += 1,
        Reload::Kept(_) => counts.kept += 1,
        Reload::NoMemory => counts.wanting += 1,
    }
    counts
}

// Closes for good.
fn closed<C>(closing: &mut Option<ServeEnd>, end: ServeEnd) -> Result<C, ServeEnd>
    ensures closed { result ≡ Err end }
    ensures closing { closing.new ≡ Some end }
{
    *closing = Some(end);
    Err(end)
}

impl<F: Files, A: Doors, E: Sink> Desk<F, A, E> {
    ghost use Rattle.px_desk.specs.Desks.{made_of, now_of, HandsOut, StaysBut, ClosesBy, TakesBack, BeginsWithSpelling};

    /// Takes the next connection, and reloads with it.
    pub fn next<R: Wait>(&mut self, rt: &R) -> Result<HandedConn<A::Conn>, ServeEnd>
        ensures made { made_of F.state A.state E.state self.new ≡ made_of F.state A.state E.state self.old }
        ensures conn { IfOk result (λ h. HandsOut (made_of F.state A.state E.state self.old) (now_of F.state A.state E.state self.old) (now_of F.state A.state E.state self.new) h) }
        ensures closed { IfErr result (λ _. StaysBut (now_of F.state A.state E.state self.old) (now_of F.state A.state E.state self.new)) }
        ensures listens { (A.state self.new.doors).listens_at ≡ (A.state self.old.doors).listens_at }
        ensures again { MatchOption self.old.closing (Unit {0}) (λ e. result ≡ Err e) }
        ensures full { self.old.closing ≡ None → self.old.most ≤ (A.state self.old.doors).accepted → result ≡ Err ServeEnd.End }
        ensures closing { ClosesBy result self.new.closing }
    {
        if let Some(closing) = self.closing {
            return Err(closing);
        }
        if self.accepted >= self.most {
            return closed(&mut self.closing, ServeEnd::End);
        }
        let Ok(first) = self.loader.publisher.receipt() else {
            return closed(&mut self.closing, ServeEnd::NoMemory);
        };
        if self.out.reserve(1).is_err() {
            return closed(&mut self.closing, ServeEnd::NoMemory);
        }
        match self.doors.accept() {
            Ok(Some(ends)) => {
                let (reload, receipt) = self.loader.reload(rt, first);
                let number = self.accepted;
                self.accepted += 1;
                let handed = receipt.snapshot().number;
                self.out.push_reserved(Out { number, handed });
                self.counts = counted(self.counts, &reload);
                Ok(HandedConn {
                    number,
                    reload,
                    receipt,
                    ends,
                })
            }
            Ok(None) => closed(&mut self.closing, ServeEnd::End),
            Err(AcceptFault::Failed) => closed(&mut self.closing, ServeEnd::DoorsFailed),
            Err(AcceptFault::Mem) => closed(&mut self.closing, ServeEnd::NoMemory),
        }
    }

    /// Whether the connection of this number is out with that receipt's number, and the published list has all that the reader
    /// has seen.
    pub fn covers(&self, number: u64, handed: u64, reader: &ConfigReader<Config>) -> bool
        requires { reader_pair reader.now ≡ self.now.pair }
        ensures exact { IsTrue result ↔ IsOut (record { number = number; handed = handed }) self.now.out × (length (seen_by reader.now) ≤ length self.now.list) }
        ensures prefix { IsTrue result → GoesOn (seen_by reader.now) self.now.list }
    {
        place_of(self.out.as_slice(), Out { number, handed }).is_some()
            && self.loader.publisher.covers(reader)
    }

    /// Takes a connection back.
    pub fn part(&mut self, parted: Parted<A::Conn>)
        requires out { IsOut (record { number = parted.number; handed = parted.handed }) self.old.out }
        requires served { IsConnServed (A.state self.old.made_doors).tells (A.state self.old.made_doors).conns self.old.list parted }
        ensures made { made_of F.state A.state E.state self.new ≡ made_of F.state A.state E.state self.old }
        ensures parts { TakesBack (now_of F.state A.state E.state self.old) (now_of F.state A.state E.state self.new) parted }
        ensures closing { self.new.closing ≡ self.old.closing }
    {
        let back = Out {
            number: parted.number,
            handed: parted.handed,
        };
        take_off(&mut self.out, back);
        let mut place = Some(parted);
        self.doors.part(&mut place);
        match place {
            None => {}
            Some(_left) => unreachable!(),
        }
    }

    /// The counts of what was handed out.
    pub fn counts(&self) -> ReloadCounts
        ensures { result ≡ self.now.counts }
    {
        self.counts
    }

    /// A desk at doors that have accepted nothing, over a publisher whose one entry is a spelling of what was loaded. It is refused
    /// for want of memory alone; the parts come back, and the publisher was given up.
    pub fn new<R: Wait>(
        rt: &R,
        alloc: Global,
        parts: DeskParts<F, A, E>,
        main: &str,
        loaded: FileSet,
        publisher: Publisher<Config>,
        most: u64,
    ) -> Result<Desk<F, A, E>, NoDesk<F, A, E>>
        requires begun { DoorsBegun (A.state parts.doors) }
        requires first { BeginsWithSpelling loaded (published publisher) }
        ensures made { IfOk result (λ d. made_of F.state A.state E.state d ≡ record { files = F.state parts.files; doors = A.state parts.doors; err = E.state parts.err; main = main.now; loaded = loaded; pair = pair_of publisher; most = most }) }
        ensures now { IfOk result (λ d. now_of F.state A.state E.state d ≡ record { loader = record { files = F.state parts.files; err = E.state parts.err; main = main.now; remembered = loaded; list = published publisher; pair = pair_of publisher }; doors = A.state parts.doors; out = []; counts = none }) }
        ensures open { IfOk result (λ d. d.closing ≡ None) }
        ensures refused { IfErr result (λ r. r.parts ≡ parts) }
    {
        let Ok(main) = String::from_str(alloc, main) else {
            drop(publisher.end(rt));
            return Err(NoDesk { parts });
        };
        let DeskParts { files, doors, err } = parts;
        Ok(Desk {
            made_files: Snapshot::of(&files),
            made_doors: Snapshot::of(&doors),
            made_err: Snapshot::of(&err),
            made_main: Snapshot::of(&main),
            loaded: Snapshot::of(&loaded),
            loader: Loader {
                alloc,
                files,
                err,
                main,
                remembered: loaded,
                current: false,
                publisher,
            },
            doors,
            out: Vec::new(alloc),
            counts: ReloadCounts::NONE,
            accepted: 0,
            most,
            closing: None,
        })
    }

    /// The parts with the counts and the answer that ended it. It may wait for readers to leave.
    pub fn into_parts<R: Wait>(self, rt: &R) -> ServedDesk<F, A, E>
        ensures parts { result.parts ≡ record { files = self.files; doors = self.doors; err = self.err } }
        ensures counts { result.counts ≡ self.counts }
        ensures closing { result.closing ≡ self.closing }
        ensures stands { DeskStands (made_of F.state A.state E.state self) (now_of F.state A.state E.state self) }
        ensures closes { IsClosed (A.state self.made_doors) self.most (A.state self.doors) result.closing }
    {
        let Desk {
            loader,
            doors,
            out: _,
            counts,
            accepted: _,
            most: _,
            closing,
            made_files: _,
            made_doors: _,
            made_err: _,
            made_main: _,
            loaded: _,
        } = self;
        let (files, err) = loader.end(rt);
        ServedDesk {
            parts: DeskParts { files, doors, err },
            counts,
            closing,
        }
    }
}
