// What is taken for a request of the proxy itself, the client's tags and a page of the proxy's own, and the log of its exchanges.
ghost use Rattle.std.specs.Prelude.{◌≡◌, IfOk, is_some};
ghost use Rattle.px_config.specs.Insides.{ChangesLittle, ChangesLogAlone, GivesTaking, InsideGoesOn, InsideState, Law, LogTakes, asked};

use crate::configs::Config;
use px_base::{List, Mem, Peer, Text};
use px_patterns::Url;
use std::alloc::Global;

/// A page of the proxy's own.
#[derive(Drop)]
pub struct InsidePage {
    /// Whether there is such a page; else the text says what was wrong.
    pub found: bool,
    pub body: Text,
}

/// What was taken for a request.
#[derive(Drop)]
pub struct Taking {
    /// How far what gives takings had come; it never falls.
    pub place: u64,
    /// The client's tags.
    pub tags: List<Text>,
    /// The page of the proxy's own that answers the request, if one does.
    pub page: Option<InsidePage>,
}

/// Gives the clients' tags and the pages of the proxy's own, and may keep a log of what came of each request. What is taken for a
/// request is lawful by the type alone, and fits the value: what fits once, fits after each later call.
pub trait Inside: Send {
    /// Which takings are lawful, whatever the value is.
    ghost lawful: { Law };

    /// What contracts see of it: which takings fit, whether that stays so, its place, how many changes were made through it, and
    /// its log.
    ghost state: { Self → InsideState };

    /// Takes what there is for a request of that URL, by the configuration of that number, from that client. Only a page request
    /// is given a page, and only one makes a change, which is one at most. After `Mem` a change that the request asked for may have
    /// been made.
    fn take(
        &mut self,
        alloc: Global,
        config: &Config,
        number: u64,
        url: &Url,
        page_request: bool,
        peer: &Peer,
    ) -> Result<Taking, Mem>
        ensures gives { IfOk result (GivesTaking lawful (state self.new) (asked config.now number url.now page_request peer.now.address)) }
        ensures changes { ChangesLittle (state self.old) (state self.new) (asked config.now number url.now page_request peer.now.address) }
        ensures unlogged { (state self.new).log ≡ (state self.old).log }
        ensures goes_on { InsideGoesOn (state self.old) (state self.new) };

    /// Whether there is a log, which wants a line of each exchange.
    fn logs(&self) -> bool
        ensures { result ≡ is_some (state self.now).log };

    /// Puts a line into the log, if there is one. A fault of the log changes nothing else.
    fn log(&mut self, line: &[u8])
        ensures logged { LogTakes (state self.old).log (state self.new).log line.now }
        ensures alone { ChangesLogAlone (state self.old) (state self.new) };
}
