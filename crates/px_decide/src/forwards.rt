// Forward lines.
ghost use Rattle.std.specs.Prelude.{◌≡◌, [], None, Ok, Some, IfErr, IfOk, OnOk, OnErr, map, option_map};
ghost use Rattle.std.specs.List.{list_any};
ghost use Rattle.px_patterns.specs.Patterns.{url_pattern};
ghost use Rattle.px_actions.specs.Hops.{next_hop, seen_hop};
ghost use Rattle.px_decide.specs.Forwards.{AddsLine, IsForwardRefusal, forward_line, has_socks, socks_line, with_hop, with_pattern, with_server};
ghost use Rattle.px_decide.specs.Lines.{forward_fault_of, keeps_server, forward_line_of, next_of};
ghost use Rattle.px_decide.specs.Servers.{kept_server, named_server};

use crate::faults::ForwardFault;
use crate::servers::{KeptServer, read_server};
use crate::words::{three_words, two_words};
use px_actions::{Hop, read_hop};
use px_base::{List, Mem, Text};
use px_patterns::{PatternFault, UrlPattern};
use std::alloc::Global;
use std::marker::Model;

/// Where a line sends requests.
#[derive(Drop)]
pub(crate) enum ForwardNext {
    /// To the origin itself.
    Direct,
    /// To a parent.
    Parent { host: Text, port: u16 },
}

/// A forward line.
#[derive(Drop)]
pub(crate) struct ForwardLine {
    pub(crate) pattern: UrlPattern,
    /// The SOCKS server through which requests are sent, if they are sent through one.
    pub(crate) server: Option<KeptServer>,
    pub(crate) next: ForwardNext,
}

/// Forward lines of both kinds, seen as the list of them.
#[derive(Drop)]
pub struct Forwards {
    alloc: Global,
    lines: List<ForwardLine>,
}

impl Model for Forwards {
    ghost use Rattle.std.specs.Prelude.{List, map};
    ghost use Rattle.px_decide.specs.Forwards.{Line};
    ghost use Rattle.px_decide.specs.Lines.{forward_line_of};

    ghost Value = { List Line };

    ghost view = { λ f. map forward_line_of f.lines };
}

impl Forwards {
    /// No lines, which takes no memory.
    pub fn empty(alloc: Global) -> Forwards
        ensures { result ≡ [] }
    {
        Forwards {
            alloc,
            lines: List::new(alloc),
        }
    }

    /// Adds the line of a value: a URL pattern, white space, and `.` or the host of a parent with a colon and a port, which is
    /// 8000 where it is absent (Privoxy's manual, "The Main Configuration File", forward). After a refusal the lines are as
    /// they were.
    pub fn add(&mut self, value: &str) -> Result<(), ForwardFault>
        ensures added { OnOk result (AddsLine self.old (forward_line value.now) self.new) }
        ensures refused { IfErr result (IsForwardRefusal (forward_line value.now)) }
        ensures err { OnErr result (self.new ≡ self.old) }
    {
        let line = read_line(self.alloc, value)?;
        self.lines.add(line)?;
        Ok(())
    }

    /// Adds the line of a value: a URL pattern, white space, the host of a SOCKS server with a colon and a port, which is 1080
    /// where it is absent, white space, and `.` or a parent as in `add` (Privoxy's manual, "The Main Configuration File",
    /// forward-socks5). After a refusal the lines are as they were.
    pub fn add_socks(&mut self, value: &str) -> Result<(), ForwardFault>
        ensures added { OnOk result (AddsLine self.old (socks_line value.now) self.new) }
        ensures refused { IfErr result (IsForwardRefusal (socks_line value.now)) }
        ensures err { OnErr result (self.new ≡ self.old) }
    {
        let line = read_socks_line(self.alloc, value)?;
        self.lines.add(line)?;
        Ok(())
    }

    /// Whether a line sends requests through a SOCKS server.
    pub fn has_socks(&self) -> bool
        ensures { result ≡ has_socks self.now }
    {
        have_socks(self.lines())
    }

    pub(crate) fn lines(&self) -> &[ForwardLine]
        ensures { map forward_line_of result.now ≡ self.now }
    {
        self.lines.as_slice()
    }
}

fn any_server(lines: &[ForwardLine]) -> bool
    ensures { result ≡ list_any keeps_server lines.now }
{
    lines.iter().any(|line| line.server.is_some())
}

#[tactic(auto, using(crate::proofs::ServerLemmas::servers))]
fn have_socks(lines: &[ForwardLine]) -> bool
    ensures { result ≡ has_socks (map forward_line_of lines.now) }
{
    any_server(lines)
}

#[tactic(auto, unfolding(crate::specs::Forwards::forward_line))]
fn read_line(alloc: Global, value: &str) -> Result<ForwardLine, ForwardFault>
    ensures line { IfOk result (λ line. forward_line value.now ≡ Ok (forward_line_of line)) }
    ensures refused { IfErr result (IsForwardRefusal (forward_line value.now)) }
{
    match two_words(value) {
        Some(words) => read_words(alloc, words.0, words.1),
        None => Err(ForwardFault::Bad),
    }
}

/// The line of two words.
fn read_words(alloc: Global, pattern: &str, parent: &[u8]) -> Result<ForwardLine, ForwardFault>
    ensures line { IfOk result (λ line. with_hop None pattern.now (next_hop parent.now) ≡ Ok (forward_line_of line)) }
    ensures refused { IfErr result (IsForwardRefusal (with_hop None pattern.now (next_hop parent.now))) }
{
    match read_hop(parent) {
        Some(hop) => line_with(alloc, pattern, None, hop),
        None => Err(ForwardFault::Bad),
    }
}

#[tactic(auto, unfolding(crate::specs::Forwards::socks_line))]
fn read_socks_line(alloc: Global, value: &str) -> Result<ForwardLine, ForwardFault>
    ensures line { IfOk result (λ line. socks_line value.now ≡ Ok (forward_line_of line)) }
    ensures refused { IfErr result (IsForwardRefusal (socks_line value.now)) }
{
    match three_words(value) {
        Some(words) => read_socks_words(alloc, words.0, words.1, words.2),
        None => Err(ForwardFault::Bad),
    }
}

/// The line of three words.
fn read_socks_words(
    alloc: Global,
    pattern: &str,
    server: &[u8],
    parent: &[u8],
) -> Result<ForwardLine, ForwardFault>
    ensures line { IfOk result (λ line. with_server pattern.now parent.now (named_server server.now) ≡ Ok (forward_line_of line)) }
    ensures refused { IfErr result (IsForwardRefusal (with_server pattern.now parent.now (named_server server.now))) }
{
    match read_server(server) {
        Some((host, port)) => line_through(alloc, pattern, host, port, parent),
        None => Err(ForwardFault::Bad),
    }
}

/// The line of a pattern, a SOCKS server and a parent.
fn line_through(
    alloc: Global,
    pattern: &str,
    host: &[u8],
    port: u16,
    parent: &[u8],
) -> Result<ForwardLine, ForwardFault>
    ensures line { IfOk result (λ line. with_hop (Some (record { host = host.now; port = port })) pattern.now (next_hop parent.now) ≡ Ok (forward_line_of line)) }
    ensures refused { IfErr result (IsForwardRefusal (with_hop (Some (record { host = host.now; port = port })) pattern.now (next_hop parent.now))) }
{
    match read_hop(parent) {
        Some(hop) => {
            let server = KeptServer::of(alloc, host, port)?;
            line_with(alloc, pattern, Some(server), hop)
        }
        None => Err(ForwardFault::Bad),
    }
}

/// The line of a pattern, a SOCKS server, if there is one, and a next hop.
fn line_with(
    alloc: Global,
    pattern: &str,
    server: Option<KeptServer>,
    hop: Hop,
) -> Result<ForwardLine, ForwardFault>
    ensures line { IfOk result (λ line. with_pattern (option_map kept_server server) (seen_hop hop.entry) (url_pattern pattern.now) ≡ Ok (forward_line_of line)) }
    ensures refused { IfErr result (IsForwardRefusal (with_pattern (option_map kept_server server) (seen_hop hop.entry) (url_pattern pattern.now))) }
{
    match UrlPattern::read(alloc, pattern) {
        Ok(pattern) => Ok(ForwardLine {
            pattern,
            server,
            next: ForwardNext::of(alloc, hop)?,
        }),
        Err(fault) => Err(pattern_fault(fault)),
    }
}

/// The refusal of a line whose pattern is refused so.
fn pattern_fault(fault: PatternFault) -> ForwardFault
    ensures { result ≡ forward_fault_of fault }
{
    match fault {
        PatternFault::HasProtocol => ForwardFault::Pattern(fault.number()),
        PatternFault::BadPort => ForwardFault::Pattern(fault.number()),
        PatternFault::BadClass => ForwardFault::Pattern(fault.number()),
        PatternFault::BadRegex => ForwardFault::Pattern(fault.number()),
        PatternFault::EmptyLabel => ForwardFault::Pattern(fault.number()),
        PatternFault::BadAddress => ForwardFault::Pattern(fault.number()),
        PatternFault::Mem => ForwardFault::Mem,
    }
}

impl ForwardNext {
    fn of(alloc: Global, hop: Hop) -> Result<ForwardNext, Mem>
        ensures { IfOk result (λ next. next_of next ≡ seen_hop hop.entry) }
    {
        match hop {
            Hop::Direct => Ok(ForwardNext::Direct),
            Hop::Parent { host, port } => Ok(ForwardNext::Parent {
                host: Text::from_bytes(alloc, host)?,
                port,
            }),
        }
    }
}
