// The log of a session's exchanges, and a log beside what gives takings.
ghost use Rattle.std.specs.Prelude.{◌≡◌, is_some, option_map};
ghost use Rattle.px_config.specs.Insides.{ChangesLogAlone};
ghost use Rattle.px_serve.specs.Logging.{LogsLine, head_bytes};

use crate::measuring::Answered;
use px_base::{Mem, Peer, Sink, write_all};
use px_config::{Config, Inside, Taking};
use px_judging::HeadSeen;
use px_log_lines::LogEntry;
use px_metered::Tally;
use px_patterns::Url;
use std::alloc::Global;

/// The bytes of a head, of which none are kept where it is too long.
fn head_bytes(seen: &HeadSeen) -> &[u8]
    ensures { result.now ≡ head_bytes seen.now }
{
    match seen {
        HeadSeen::Block(block) => block.as_bytes(),
        HeadSeen::Over => &[],
    }
}

/// Puts the line of an exchange into the log, if there is one.
pub fn log_exchange<I: Inside>(
    inside: &mut I,
    seen: &HeadSeen,
    peer: &Peer,
    moment: u64,
    answered: Answered,
)
    requires measured { is_some answered.returned ≡ is_some (I.state inside.old).log }
    ensures logs { LogsLine peer.now.address moment seen.now answered.returned answered.concluded.ending (I.state inside.old).log (I.state inside.new).log }
    ensures alone { ChangesLogAlone (I.state inside.old) (I.state inside.new) }
{
    if let Some(Tally { status, body }) = answered.returned {
        let entry = LogEntry {
            client: peer.address.as_bytes(),
            moment,
            head: head_bytes(seen),
            status,
            body,
            ending: answered.concluded.ending,
        };
        inside.log(entry.line().as_slice());
    }
}

/// Makes the logs of workers.
pub trait Logs {
    type Log: Sink + Drop;

    /// A log for one worker, which takes no memory.
    fn log(&self) -> Self::Log;
}

/// What gives takings, with a log beside it, if there is one.
pub struct Logging<I, L> {
    inside: I,
    log: Option<L>,
}

impl<I: Inside, L: Sink + Drop> Logging<I, L> {
    /// Puts a log beside what gives takings.
    pub fn new(inside: I, log: Option<L>) -> Logging<I, L>
        ensures inside { result.inside ≡ inside }
        ensures log { result.log ≡ log }
    {
        Logging { inside, log }
    }

    /// What gives takings alone. The log is let go.
    pub fn into_inside(self) -> I
        ensures { result ≡ self.inside }
    {
        let Logging { inside, log: _log } = self;
        inside
    }
}

impl<I: Inside, L: Sink> Inside for Logging<I, L> {
    ghost lawful = { I.lawful };

    ghost state = { λ l. record (I.state l.inside) { log = option_map L.state l.log } };

    fn take(
        &mut self,
        alloc: Global,
        config: &Config,
        number: u64,
        url: &Url,
        page_request: bool,
        peer: &Peer,
    ) -> Result<Taking, Mem> {
        self.inside
            .take(alloc, config, number, url, page_request, peer)
    }

    fn logs(&self) -> bool {
        self.log.is_some()
    }

    /// Where the log refuses a line, its own count says so.
    fn log(&mut self, line: &[u8]) {
        if let Some(log) = &mut self.log {
            let _written = write_all(log, line);
        }
    }
}
