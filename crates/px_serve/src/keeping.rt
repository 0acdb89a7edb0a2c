// The store that a session keeps from request to request, and a worker from session to session.
ghost use Rattle.std.specs.Prelude.{◌≡◌, ◌↔◌, IsTrue, Some};
ghost use Rattle.px_serve.specs.Answering.{AnswersBetween};
ghost use Rattle.px_serve.specs.Keeping.{OfEntry, store_number};

use crate::measuring::{Answered, exchange_measured};
use px_base::Mem;
use px_config::{Config, Running};
use px_ends::{Ends, Outside};
use px_judging::{Handed, judge};
use px_notes::{After, broken};
use px_publish::Snapshot;
use px_ways::Way;
use std::alloc::Global;
use std::marker::Model;
use std::thread::Threads;

/// The entry with that number, which runs: seen as that entry.
#[derive(Drop)]
pub struct KeptEntry<'c> {
    pub number: u64,
    pub running: Running<'c>,
}

impl<'c> Model for KeptEntry<'c> {
    ghost use Rattle.px_config.specs.declared.configs.Config.{Config};
    ghost use Rattle.px_publish.specs.Views.{Entry};

    ghost Value = { Entry Config };

    ghost view = { λ k. record { number = k.number; config = k.running } };
}

/// The store with which sessions are served, if there was memory for one.
#[derive(Drop)]
pub enum Store<'c> {
    Of(KeptEntry<'c>),
    /// Memory was wanting: a session that is served with it ends so, before anything is read.
    Wanting,
}

impl<'c> Store<'c> {
    /// A store of the entry with that number.
    pub fn new(alloc: Global, number: u64, config: &'c Config) -> Store<'c>
        ensures { OfEntry (record { number = number; config = config.now }) result }
    {
        match Running::new(alloc, config) {
            Ok(running) => Store::Of(KeptEntry { number, running }),
            Err(Mem) => Store::Wanting,
        }
    }

    /// Whether it is the store of the entry with that number.
    pub fn is_of(&self, number: u64) -> bool
        ensures { IsTrue result ↔ (store_number self.now ≡ Some number) }
    {
        match self {
            Store::Of(kept) => kept.number == number,
            Store::Wanting => false,
        }
    }
}

/// Answers a request by an entry that runs.
fn answer_by<R: Threads + Sync, A: Outside>(
    alloc: Global,
    way: &Way<'_, R>,
    handed: Handed,
    running: &mut Running<'_>,
    ends: &mut Ends<A>,
    measured: bool,
) -> Answered
    ensures answers { AnswersBetween running.old (Some handed) measured ends.old ends.new result.concluded result.returned }
    ensures same { running.new ≡ running.old }
{
    match judge(alloc, handed, &ends.peer, running) {
        Ok(judgement) => exchange_measured(
            alloc,
            way,
            judgement,
            running,
            &mut ends.client,
            &mut ends.client_out,
            &mut ends.dialer,
            measured,
        ),
        Err(Mem) => Answered::nothing(broken(After::NoMemory), measured),
    }
}

/// Answers a request by a configuration that begins to run for it.
fn answer_anew<R: Threads + Sync, A: Outside>(
    alloc: Global,
    way: &Way<'_, R>,
    handed: Handed,
    config: &Config,
    ends: &mut Ends<A>,
    measured: bool,
) -> Answered
    ensures { AnswersBetween config.now (Some handed) measured ends.old ends.new result.concluded result.returned }
{
    match Running::new(alloc, config) {
        Ok(mut running) => answer_by(alloc, way, handed, &mut running, ends, measured),
        Err(Mem) => Answered::nothing(broken(After::NoMemory), measured),
    }
}

/// Answers what is handed by an entry: with the one kept where it is that entry, and else with one of its own. Where nothing is
/// handed, memory was wanting. What is returned is measured or not.
pub fn answer<R: Threads + Sync, A: Outside>(
    alloc: Global,
    way: &Way<'_, R>,
    handed: Option<Handed>,
    snapshot: &Snapshot<'_, Config>,
    kept: &mut KeptEntry<'_>,
    ends: &mut Ends<A>,
    measured: bool,
) -> Answered
    requires of { kept.old.number ≡ snapshot.now.number → kept.old.config ≡ snapshot.now.config.now }
    ensures answers { AnswersBetween snapshot.now.config.now handed measured ends.old ends.new result.concluded result.returned }
    ensures same { kept.new ≡ kept.old }
{
    match handed {
        Some(handed) => {
            if kept.number == snapshot.number {
                answer_by(alloc, way, handed, &mut kept.running, ends, measured)
            } else {
                answer_anew(alloc, way, handed, snapshot.config, ends, measured)
            }
        }
        None => Answered::nothing(broken(After::NoMemory), measured),
    }
}
