//! The runs of a case: its command over objects in memory, and its session by itself.
ghost use Rattle.std.specs.Prelude.{◌≡◌, [], IfOk};

use crate::cases::fields::Key;
use crate::cases::setups::{Device, Failing, NamedFile, Origin, Setup};
use px_base::{
    Answer, Content, Dialer, Files, FixedClock, List, MemDialer, MemFiles, Peer, TapeIn, TapeOut,
    Text,
};
use px_commands::{RanTool, ToolParts, run_tool};
use px_config::{Config, load};
use px_ends::{Ends, Joined, Outside};
use px_leaf_rows::Fault;
use px_link_pool::{Look, Sees};
use px_notes::Session;
use px_pages::Pages;
use px_publish::StepConfig;
use px_serve::serve_cold;
use px_shared::{with_pool, without_pool};
use px_socks::SocksDialer;
use px_ways::Way;
use std::alloc::Global;
use std::sync::Arc;
use std::thread::Threads;

/// How the streams of a run are cut.
#[derive(Clone, Copy)]
pub enum RunCut {
    /// As the case says.
    Given,
    /// Each in two, behind so many bytes.
    At(usize),
    /// Into single bytes.
    Bytes,
}

/// How a run differs from that of the case itself.
#[derive(Clone, Copy)]
pub struct RunPlan {
    pub cut: RunCut,
    pub failing: Option<Failing>,
}

impl RunPlan {
    /// The run of the case itself.
    pub(crate) const OWN: RunPlan = RunPlan {
        cut: RunCut::Given,
        failing: None,
    };
}

/// How many pieces of a stream are single bytes; what is behind them is one piece.
const SINGLE_BYTES: usize = 4_096;

/// What is shown of SENT where it isn't put.
pub(crate) const UNTOUCHED: &[u8] = b"untouched";

/// What a run shows, by key.
#[derive(Drop)]
pub struct Seen {
    shown: Vec<(Key<'static>, Text)>,
}

impl Seen {
    fn new(alloc: Global) -> Seen {
        Seen {
            shown: Vec::new(alloc),
        }
    }

    /// Shows a text under a key.
    fn show(&mut self, key: Key<'static>, text: Text) -> Result<(), Fault> {
        Ok(self.shown.push((key, text))?)
    }

    /// What it shows under a key.
    pub(crate) fn shown(&self, key: Key<'_>) -> Option<&[u8]> {
        for (shown, text) in &self.shown {
            if *shown == key {
                return Some(text.as_bytes());
            }
        }
        None
    }

    pub(crate) fn out(&self) -> &[u8] {
        self.shown(Key::Out).unwrap_or(&[])
    }

    /// How its session ended.
    pub(crate) fn first_of_end(&self) -> Option<&[u8]> {
        self.shown(Key::End)?.split(|byte| *byte == b' ').next()
    }

    /// How the last exchange of its session ended.
    pub(crate) fn last_of_end(&self) -> Option<&[u8]> {
        self.shown(Key::End)?.rsplit(|byte| *byte == b' ').next()
    }
}

/// A run that is made ready: the case's setup, and how the run differs from the case's own.
#[derive(Clone, Copy)]
struct Run<'r, 's> {
    alloc: Global,
    setup: &'r Setup<'s>,
    plan: &'r RunPlan,
}

impl Run<'_, '_> {
    fn text(&self, bytes: &[u8]) -> Result<Text, Fault> {
        Ok(Text::from_bytes(self.alloc, bytes)?)
    }

    /// The sizes of the first calls of a device.
    fn sizes(&self, device: Device) -> Result<Vec<usize>, Fault> {
        let mut sizes = Vec::new(self.alloc);
        match self.plan.cut {
            RunCut::Given => {
                for cuts in &self.setup.cuts {
                    if cuts.device == device {
                        sizes.extend_from_slice(cuts.sizes.as_slice())?;
                    }
                }
            }
            RunCut::At(place) => sizes.push(place)?,
            RunCut::Bytes => return Ok(vec![in self.alloc; 1; SINGLE_BYTES]?),
        }
        Ok(sizes)
    }

    /// The calls of a device that fail; of a link, those of that dial's.
    fn fails(&self, device: Device, dial: usize) -> Result<Vec<u64>, Fault> {
        let mut calls = Vec::new(self.alloc);
        for failing in self.setup.failing.iter().chain(self.plan.failing.iter()) {
            if failing.device == device && failing.dial == dial {
                calls.push(failing.call)?;
            }
        }
        Ok(calls)
    }

    fn input(&self) -> Result<TapeIn, Fault> {
        let sizes = self.sizes(Device::ClientRead)?;
        let fails = self.fails(Device::ClientRead, 0)?;
        let bytes = self.setup.input.as_slice();
        Ok(TapeIn::new(self.alloc, bytes, sizes.as_slice(), fails.as_slice())?)
    }

    /// The client's sink, or the error output.
    fn output(&self, device: Device) -> Result<TapeOut, Fault> {
        let sizes = self.sizes(device)?;
        let fails = self.fails(device, 0)?;
        Ok(TapeOut::new(self.alloc, sizes.as_slice(), fails.as_slice())?)
    }

    fn clock(&self) -> Result<FixedClock, Fault> {
        let moments = Vec::from_slice(self.alloc, self.setup.moments.as_slice())?;
        Ok(FixedClock::new(List::from_vec(moments)))
    }

    /// What the dial with that number gives.
    fn answer(&self, dial: usize, origin: &Origin) -> Result<Answer, Fault> {
        if !self.fails(Device::NoName, dial)?.is_empty() {
            return Ok(Answer::NoName);
        }
        if !self.fails(Device::NotReached, dial)?.is_empty() {
            return Ok(Answer::NotReached);
        }
        match origin {
            Origin::Link(bytes) => Ok(Answer::Link {
                bytes: self.text(bytes.as_slice())?,
                cuts: List::from_vec(self.sizes(Device::LinkRead)?),
                read_fails: List::from_vec(self.fails(Device::LinkRead, dial)?),
                write_fails: List::from_vec(self.fails(Device::LinkWrite, dial)?),
            }),
            Origin::NoName => Ok(Answer::NoName),
            Origin::NotReached => Ok(Answer::NotReached),
        }
    }

    fn dialer(&self) -> Result<MemDialer, Fault>
        ensures none_dialled { IfOk result (λ d. (⟦<MemDialer as Dialer>⟧.state d).dials ≡ []) }
    {
        let mut answers = List::new(self.alloc);
        for (dial, origin) in self.setup.origins.iter().enumerate() {
            answers.add(self.answer(dial, origin)?)?;
        }
        Ok(MemDialer::new(self.alloc, answers)?)
    }

    /// The text of ORIGIN.
    fn origin_file(&self) -> Result<Text, Fault> {
        let mut text = Text::new(self.alloc);
        for origin in &self.setup.origins {
            match origin {
                Origin::Link(bytes) => {
                    let length = bytes.len();
                    text.push_all(format!(in self.alloc; "{length}\n")?.as_bytes())?;
                    text.push_all(bytes.as_slice())?;
                }
                Origin::NoName => text.push_all(b"no-name\n")?,
                Origin::NotReached => text.push_all(b"not-reached\n")?,
            }
        }
        Ok(text)
    }

    /// The files of a configuration.
    fn files(&self, named: &[NamedFile<'_>], fails: &[u64]) -> Result<MemFiles, Fault> {
        let mut states = List::new(self.alloc);
        states.add(self.named_files(named)?)?;
        Ok(MemFiles::new(self.alloc, states, fails)?)
    }

    fn named_files(&self, named: &[NamedFile<'_>]) -> Result<List<(Text, Text)>, Fault> {
        let mut files = List::new(self.alloc);
        for file in named {
            self.add_file(&mut files, file.name, file.bytes.as_slice())?;
        }
        if self.setup.has_origins {
            let origins = self.origin_file()?;
            self.add_file(&mut files, "o", origins.as_bytes())?;
        }
        Ok(files)
    }

    fn add_file(
        &self,
        files: &mut List<(Text, Text)>,
        name: &str,
        bytes: &[u8],
    ) -> Result<(), Fault> {
        let name = self.text(name.as_bytes())?;
        let bytes = self.text(bytes)?;
        Ok(files.add((name, bytes))?)
    }

    /// What the command is run with.
    fn parts(&self, files: MemFiles) -> Result<CaseParts, Fault> {
        let input = self.input()?;
        let out = self.output(Device::ClientWrite)?;
        let err = self.output(Device::ErrorWrite)?;
        let clock = self.clock()?;
        Ok(ToolParts {
            files,
            input,
            out,
            err,
            clock,
        })
    }

    /// The ends of a session, with a dialer through SOCKS servers.
    fn ends(&self) -> Result<Ends<CaseConn>, Fault>
        ensures none_dialled { IfOk result (λ ends. ends.dialer.dials ≡ []) }
    {
        let input = self.input()?;
        let out = self.output(Device::ClientWrite)?;
        let dialer = SocksDialer::new(self.alloc, self.dialer()?);
        let clock = self.clock()?;
        let peer = Peer {
            address: self.text(b"127.0.0.1")?,
        };
        Ok(Ends::new(self.alloc, input, out, dialer, clock, peer))
    }

    /// The words of the command.
    fn words(&self) -> Result<Vec<String>, Fault> {
        let mut words = Vec::new(self.alloc);
        for word in &self.setup.words {
            words.push(String::from_str(self.alloc, word)?)?;
        }
        Ok(words)
    }

    /// The client's tags, which stand behind the first four words of `pass`.
    fn tags(&self) -> Result<Vec<Text>, Fault> {
        let mut tags = Vec::new(self.alloc);
        for tag in self.setup.words.iter().skip(4) {
            tags.push(self.text(tag.as_bytes())?)?;
        }
        Ok(tags)
    }

    /// A source that gives the configurations in turn.
    fn configs(&self, configs: &[Arc<Config>]) -> Result<StepConfig<Config>, Fault> {
        let mut list = List::new(self.alloc);
        for config in configs {
            list.add(Arc::try_clone(config).map_err(|_| Fault::Mem)?)?;
        }
        if list.is_empty() {
            return Err(Fault::Form("a session has a configuration"));
        }
        Ok(StepConfig::new(list))
    }
}

/// The most bytes of SENT.
const SENT_LIMIT: u64 = 1 << 26;

/// The text of SENT, if it was put. Where the call is one that is to fail, the next one reads it.
fn sent_file(setup: &Setup<'_>, files: &mut MemFiles) -> Option<Text> {
    let name = setup.words.get(3)?;
    let read = match files.read(name, SENT_LIMIT) {
        Ok(content) => Ok(content),
        Err(_) => files.read(name, SENT_LIMIT),
    };
    match read {
        Ok(Content::Found(text)) => Some(text),
        Ok(Content::Missing) | Ok(Content::Over) | Err(_) => None,
    }
}

/// What a command of a case is run with.
type CaseParts = ToolParts<MemFiles, TapeIn, TapeOut, TapeOut, FixedClock>;

/// The types of the ends of a case's session.
type CaseConn = Joined<TapeIn, TapeOut, SocksDialer<MemDialer>, FixedClock>;

/// Runs the command, the directions of a tunnel in turn.
pub(crate) fn run_command<R: Threads + Sync>(
    _rt: &R,
    setup: &Setup<'_>,
    plan: &RunPlan,
) -> Result<Seen, Fault> {
    let alloc = setup.alloc;
    let run = Run { alloc, setup, plan };
    let Some(named) = setup.states.first() else {
        return Err(Fault::Form("a command has files"));
    };
    let fails = run.fails(Device::Files, 0)?;
    let files = run.files(named.as_slice(), fails.as_slice())?;
    let parts = run.parts(files)?;
    let RanTool { status, parts } = run_over::<R>(&run, parts)?;
    let ToolParts {
        mut files,
        input: _,
        out,
        err,
        clock: _,
    } = parts;
    let sent = match sent_file(setup, &mut files) {
        Some(sent) => sent,
        None => run.text(UNTOUCHED)?,
    };
    let mut seen = Seen::new(alloc);
    seen.show(Key::Out, out.into_taken())?;
    seen.show(Key::Err, err.into_taken())?;
    seen.show(Key::Sent, sent)?;
    let status = format!(in alloc; "{status}")?;
    seen.show(Key::Status, run.text(status.as_bytes())?)?;
    Ok(seen)
}

/// Runs the command over its parts.
fn run_over<R: Threads + Sync>(
    run: &Run<'_, '_>,
    parts: CaseParts,
) -> Result<RanTool<MemFiles, TapeIn, TapeOut, TapeOut, FixedClock>, Fault> {
    let words = run.words()?;
    let way: Way<'_, R> = Way::InTurn;
    Ok(run_tool(run.alloc, &way, &words, parts))
}

/// The configurations of the files of a case.
pub(crate) fn configs(setup: &Setup<'_>) -> Result<Vec<Arc<Config>>, Fault> {
    let (alloc, plan) = (setup.alloc, &RunPlan::OWN);
    let run = Run { alloc, setup, plan };
    let mut configs = Vec::new(alloc);
    for named in &setup.states {
        let mut files = run.files(named.as_slice(), &[])?;
        match load(alloc, &mut files, "c") {
            Ok(config) => configs.push(Arc::new(alloc, config)?)?,
            Err(_) => return Err(Fault::Form("the files of a session make a configuration")),
        }
    }
    Ok(configs)
}

/// The text of SENT for what was sent.
fn sent_over(alloc: Global, dialer: &MemDialer) -> Result<Text, Fault> {
    let mut sent = Text::new(alloc);
    for link in dialer.links() {
        let (port, length) = (link.port, link.sent.len());
        sent.push_all(link.host.as_bytes())?;
        sent.push_all(format!(in alloc; ":{port} {length}\n")?.as_bytes())?;
        sent.push_all(link.sent.as_bytes())?;
    }
    Ok(sent)
}

/// Runs the session by itself, both directions of a tunnel at once.
pub(crate) fn run_session<R: Threads + Sync>(
    rt: &R,
    setup: &Setup<'_>,
    configs: &[Arc<Config>],
    plan: &RunPlan,
) -> Result<Seen, Fault> {
    let alloc = setup.alloc;
    let run = Run { alloc, setup, plan };
    let Served { session, ends } = serve(&run, rt, configs)?;
    let Ends {
        client: _,
        client_out,
        dialer,
        clock: _,
        peer: _,
    } = ends;
    session_seen(
        &run,
        &session,
        client_out.into_taken(),
        &dialer.into_inner(),
    )
}

/// A session that was served, and the ends behind it.
#[derive(Drop)]
struct Served {
    session: Session,
    ends: Ends<CaseConn>,
}

/// Serves a client by configurations in turn: over shared links where the first one says so.
fn serve<R: Threads + Sync>(
    run: &Run<'_, '_>,
    rt: &R,
    configs: &[Arc<Config>],
) -> Result<Served, Fault> {
    let sharing = match configs.first() {
        Some(first) => first.settings.sharing,
        None => false,
    };
    let mut configs = run.configs(configs)?;
    let mut pages = Pages::new(List::from_vec(run.tags()?));
    let mut ends = run.ends()?;
    let way = Way::AtOnce(rt);
    if sharing {
        let (session, ends) = share_links(run.alloc, &way, &mut configs, &mut pages, ends);
        Ok(Served { session, ends })
    } else {
        let session = serve_cold(run.alloc, &way, &mut configs, &mut pages, &mut ends);
        Ok(Served { session, ends })
    }
}

/// Serves a client over a pool of links of its ends' dialer.
fn share_links<R: Threads + Sync, A: Outside>(
    alloc: Global,
    way: &Way<'_, R>,
    configs: &mut StepConfig<Config>,
    pages: &mut Pages,
    ends: Ends<A>,
) -> (Session, Ends<A>)
where
    Look: Sees<<A::Dial as Dialer>::In>,
    requires undialled { ends.dialer.dials ≡ [] }
{
    let mut pooled = with_pool(alloc, ends);
    let session = serve_cold(alloc, way, configs, pages, &mut pooled);
    let (ends, _wanting) = without_pool(pooled);
    (session, ends)
}

/// What is seen behind a session.
fn session_seen(
    run: &Run<'_, '_>,
    session: &Session,
    out: Text,
    dialer: &MemDialer,
) -> Result<Seen, Fault> {
    let mut seen = Seen::new(run.alloc);
    seen.show(Key::Out, out)?;
    seen.show(Key::Sent, sent_over(run.alloc, dialer)?)?;
    let end = told_end(run.alloc, session)?;
    seen.show(Key::End, run.text(end.as_bytes())?)?;
    let notes = told_notes(run.alloc, session)?;
    seen.show(Key::Notes, run.text(notes.as_str().trim().as_bytes())?)?;
    Ok(seen)
}

/// How a session and its exchanges ended.
fn told_end(alloc: Global, session: &Session) -> Result<String, Fault> {
    let end = session.end;
    let mut told = format!(in alloc; "{end:?}")?;
    for note in session.exchanges.as_slice() {
        let ending = note.ending;
        let more = format!(in alloc; " {ending:?}")?;
        told.push_str(more.as_str())?;
    }
    Ok(told)
}

/// The configuration and the moment of each exchange of a session, as `NUMBER@MOMENT`.
fn told_notes(alloc: Global, session: &Session) -> Result<String, Fault> {
    let mut told = String::new(alloc);
    for note in session.exchanges.as_slice() {
        let (config, moment) = (note.config, note.moment);
        let more = format!(in alloc; " {config}@{moment}")?;
        told.push_str(more.as_str())?;
    }
    Ok(told)
}
