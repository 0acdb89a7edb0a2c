// The sessions of the job, each over memory.
ghost use Rattle.std.specs.Prelude.{◌≡◌, ◌+◌, ◌<◌, ◌≤◌, ◌^◌, ◌++◌, ◌∷◌, [], ℕ, IfOk, OnOk, length, true};
ghost use Rattle.px_generated.specs.Jobs.{draws_before};
ghost use Rattle.px_exercise.specs.Runs.{AreRunsOf, GivesOnly, HasRun, IsRun, total_of};

use crate::returns::Returns;
use px_base::{Clock, FixedClock, List, Mem, MemDialer, Peer, TapeIn, Text};
use px_config::Config;
use px_ends::{Ends, Joined};
use px_generated::{Draws, JobSession, SESSIONS, job_session, sessions_in_order};
use px_notes::{ExchangeNote, SessionEnd};
use px_pages::BarePages;
use px_publish::{Configs, FixedConfig};
use px_serve::serve_cold;
use px_ways::Way;
use std::alloc::Global;
use std::sync::Arc;
use std::thread::Threads;

/// The address of each client.
const CLIENT: &[u8] = b"127.0.0.1";

/// The moment of each exchange, in seconds since 1970.
const MOMENT: u64 = 0;

/// The types of the ends of a session.
type JobConn = Joined<TapeIn, Returns, MemDialer, FixedClock>;

/// What came of a session: the notes of its exchanges in order, and what its client's sink took.
#[derive(Drop)]
pub struct SessionRun {
    pub notes: List<ExchangeNote>,
    pub taken: Text,
}

/// What came of sessions: the notes of their exchanges in order, and how many bytes their clients' sinks took in all.
#[derive(Drop)]
pub struct Total {
    pub notes: List<ExchangeNote>,
    pub returned: u128,
}

impl Total {
    /// What came of no session.
    fn new(alloc: Global) -> Total
        ensures { result ≡ total_of [] }
    {
        Total {
            notes: List::new(alloc),
            returned: 0,
        }
    }

    /// Adds what came of a session. The number of bytes can't be too large for its type, however many a sink took.
    fn add(&mut self, run: &SessionRun) -> Result<(), Mem>
        requires room { self.old.returned + 2 ^ 64 ≤ 2 ^ 128 }
        ensures notes { OnOk result (self.new.notes ≡ self.old.notes ++ run.now.notes) }
        ensures returned { OnOk result (self.new.returned ≡ self.old.returned + length run.now.taken) }
        ensures within { self.new.returned < self.old.returned + 2 ^ 64 }
    {
        push_notes(&mut self.notes, run.notes.as_slice())?;
        self.returned += run.taken.len() as u128;
        Ok(())
    }
}

/// Adds notes at the end.
fn push_notes(notes: &mut List<ExchangeNote>, more: &[ExchangeNote]) -> Result<(), Mem>
    ensures { OnOk result (notes.new ≡ notes.old ++ more.now) }
{
    'notes: for note in more {
        notes.add(*note)?;
    }
    Ok(())
}

/// The one configuration, at each look.
fn fixed_config(alloc: Global, config: Config) -> Result<FixedConfig<Config>, Mem>
    ensures { IfOk result (λ configs. GivesOnly config (⟦<FixedConfig<Config> as Configs>⟧.coming configs)) }
{
    Ok(FixedConfig::new(Arc::new(alloc, config)?))
}

/// A clock that gives one moment, again and again.
fn fixed_clock(alloc: Global, moment: u64) -> Result<FixedClock, Mem>
    ensures tells { IfOk result (λ clock. (⟦<FixedClock as Clock>⟧.state clock).tells ≡ true) }
    ensures coming { IfOk result (λ clock. (⟦<FixedClock as Clock>⟧.state clock).coming ≡ moment ∷ []) }
{
    let mut moments = List::with_capacity(alloc, 1)?;
    moments.add(moment)?;
    Ok(FixedClock::new(moments))
}

/// Runs a session by itself, over bytes in one piece and a sink that don't fail.
fn run_session<R: Threads + Sync>(
    alloc: Global,
    way: &Way<'_, R>,
    configs: &mut FixedConfig<Config>,
    session: JobSession,
) -> Result<SessionRun, Mem>
    ensures run { (config : Config) → GivesOnly config (⟦<FixedConfig<Config> as Configs>⟧.coming configs.old) → IfOk result (IsRun config session) }
    ensures fixed { (config : Config) → GivesOnly config (⟦<FixedConfig<Config> as Configs>⟧.coming configs.old) → OnOk result (GivesOnly config (⟦<FixedConfig<Config> as Configs>⟧.coming configs.new)) }
{
    let JobSession { input, answers } = session;
    let peer = Peer {
        address: Text::from_bytes(alloc, CLIENT)?,
    };
    let client_in = TapeIn::new(alloc, input.as_bytes(), &[], &[])?;
    let client_out = Returns::new(alloc);
    let dialer = MemDialer::new(alloc, answers)?;
    let clock = fixed_clock(alloc, MOMENT)?;
    let mut ends: Ends<JobConn> = Ends::new(alloc, client_in, client_out, dialer, clock, peer);
    let served = serve_cold(alloc, way, configs, &mut BarePages, &mut ends);
    if served.end == SessionEnd::NoMemory {
        return Err(Mem);
    }
    let Ends {
        client: _,
        client_out,
        dialer: _,
        clock: _,
        peer: _,
    } = ends;
    Ok(SessionRun {
        notes: served.exchanges,
        taken: client_out.into_taken(),
    })
}

/// Runs the job's next session, and adds what came of it.
fn run_next<R: Threads + Sync>(
    alloc: Global,
    way: &Way<'_, R>,
    configs: &mut FixedConfig<Config>,
    draws: &mut Draws,
    total: &mut Total,
) -> Result<(), Mem>
    requires room { total.old.returned + 2 ^ 64 ≤ 2 ^ 128 }
    ensures next { (config : Config) (number count : ℕ)
        → HasRun config number count (⟦<FixedConfig<Config> as Configs>⟧.coming configs.old) draws.old total.old
        → OnOk result (HasRun config number (count + 1) (⟦<FixedConfig<Config> as Configs>⟧.coming configs.new) draws.new total.new) }
    ensures within { total.new.returned < total.old.returned + 2 ^ 64 }
{
    sessions_in_order();
    let session = job_session(alloc, draws)?;
    let run = run_session(alloc, way, configs, session)?;
    total.add(&run)?;
    Ok(())
}

/// Runs all sessions of the job whose draws these are, with one configuration.
pub fn run_all<R: Threads + Sync>(
    alloc: Global,
    way: &Way<'_, R>,
    config: Config,
    mut draws: Draws,
) -> Result<Total, Mem>
    ensures runs { (number : ℕ) → draws ≡ draws_before 0 number → IfOk result (AreRunsOf config number) }
{
    sessions_in_order();
    let mut configs = fixed_config(alloc, config)?;
    let mut total = Total::new(alloc);
    'sessions: for _ in 0..SESSIONS {
        run_next(alloc, way, &mut configs, &mut draws, &mut total)?;
    }
    Ok(total)
}
