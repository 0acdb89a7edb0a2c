// The command `pass`: one session over the input, with the answers of a file.
ghost use Rattle.std.specs.Prelude.{◌≡◌, List, ℕ, IfOk, IfSome, OnErr, Some, map, string_bytes};
ghost use Rattle.px_base.specs.Contents.{FilesGoOn};
ghost use Rattle.px_base.specs.Dials.{finished_links};
ghost use Rattle.px_commands.specs.Clients.{StreamsGoOn, streams_as};
ghost use Rattle.px_commands.specs.Passes.{OutsideGoesOn, RunsLoaded, HasServed, PutsAfter, tool_as};
ghost use Rattle.px_commands.specs.Passing.{RunsPass};
ghost use Rattle.px_commands.specs.Sents.{sent_text};

use crate::answers::{OriginRead, read_answers};
use crate::clients::{Ended, Streams, made_client, serve_client};
use crate::loads::report_load;
use crate::sents::made_sent;
use crate::statuses::{Status, is_wanting, status_after};
use crate::tools::{EndedTool, ToolParts};
use crate::words::PassWords;
use px_base::{Answer, Clock, Dialer, Files, List, Mem, MemDialer, Sink, Source, Text};
use px_config::{Config, load};
use px_notes::SessionEnd;
use px_socks::SocksDialer;
use px_ways::Way;
use std::alloc::Global;
use std::thread::Threads;

/// Runs `pass`: loads CONFIG, reads ORIGIN, serves the input as one client, and puts SENT last.
pub fn run_pass<R: Threads + Sync, F: Files, S: Source, O: Sink, E: Sink, T: Clock>(
    alloc: Global,
    way: &Way<'_, R>,
    pass: PassWords<'_>,
    parts: ToolParts<F, S, O, E, T>,
) -> EndedTool<F, S, O, E, T>
    ensures runs { RunsPass pass.entry.config.now pass.entry.origin.now pass.entry.sent.now (map string_bytes pass.entry.tags.now)
        (tool_as F.state S.state O.state E.state T.state parts) (tool_as F.state S.state O.state E.state T.state result.parts) result.status }
    ensures goes_on { OutsideGoesOn (tool_as F.state S.state O.state E.state T.state parts) (tool_as F.state S.state O.state E.state T.state result.parts) }
{
    let ToolParts {
        mut files,
        input,
        out,
        mut err,
        clock,
    } = parts;
    match load(alloc, &mut files, pass.config) {
        Ok(loaded) => {
            let parts = ToolParts {
                files,
                input,
                out,
                err,
                clock,
            };
            run_loaded(alloc, way, loaded, pass, parts)
        }
        Err(fault) => {
            let status = report_load(alloc, &mut err, &fault);
            let parts = ToolParts {
                files,
                input,
                out,
                err,
                clock,
            };
            EndedTool { status, parts }
        }
    }
}

/// Goes on with a configuration.
fn run_loaded<R: Threads + Sync, F: Files, S: Source, O: Sink, E: Sink, T: Clock>(
    alloc: Global,
    way: &Way<'_, R>,
    loaded: Config,
    pass: PassWords<'_>,
    parts: ToolParts<F, S, O, E, T>,
) -> EndedTool<F, S, O, E, T>
    ensures runs { RunsLoaded loaded pass.entry.origin.now pass.entry.sent.now (map string_bytes pass.entry.tags.now)
        (tool_as F.state S.state O.state E.state T.state parts) (tool_as F.state S.state O.state E.state T.state result.parts) result.status }
    ensures goes_on { OutsideGoesOn (tool_as F.state S.state O.state E.state T.state parts) (tool_as F.state S.state O.state E.state T.state result.parts) }
{
    let ToolParts {
        mut files,
        input,
        out,
        err,
        clock,
    } = parts;
    match read_answers(alloc, &mut files, pass.origin) {
        OriginRead::Answers(answers) => {
            let streams = Streams { input, out, clock };
            let ServedInput { served, streams } = serve_input(
                alloc, way, loaded, pass.tags, answers, streams,
            );
            match served {
                Ok(served) => {
                    let status = put_served(&mut files, pass.sent, served);
                    behind_session(status, files, streams, err)
                }
                Err(Mem) => behind_session(Status::NoMemory, files, streams, err),
            }
        }
        OriginRead::Refused => {
            let streams = Streams { input, out, clock };
            behind_session(Status::NoOrigin, files, streams, err)
        }
        OriginRead::Failed => {
            let streams = Streams { input, out, clock };
            behind_session(Status::ReadFailed, files, streams, err)
        }
        OriginRead::NoMemory => {
            let streams = Streams { input, out, clock };
            behind_session(Status::NoMemory, files, streams, err)
        }
    }
}

/// What is left with a status of what a command was run with.
fn behind_session<F, S, O, E, T>(
    status: Status,
    files: F,
    streams: Streams<S, O, T>,
    err: E,
) -> EndedTool<F, S, O, E, T>
    ensures { result ≡ record { status = status; parts = record { files = files; input = streams.input; out = streams.out; err = err; clock = streams.clock } } }
{
    let Streams { input, out, clock } = streams;
    let parts = ToolParts {
        files,
        input,
        out,
        err,
        clock,
    };
    EndedTool { status, parts }
}

/// How a session ended, and the text of SENT, if memory was there for it.
#[derive(Drop)]
pub struct ServedSession {
    end: SessionEnd,
    sent: Option<Text>,
}

/// What came of serving the input, and the streams behind it.
struct ServedInput<S, O, T> {
    served: Result<ServedSession, Mem>,
    streams: Streams<S, O, T>,
}

/// Serves the input as one client, whose dials have the answers; where a forward line has a SOCKS server, the dials go through
/// such servers, and SENT has the links to them. After `Mem` nothing was read, asked or returned.
fn serve_input<R: Threads + Sync, S: Source, O: Sink, T: Clock>(
    alloc: Global,
    way: &Way<'_, R>,
    loaded: Config,
    tags: &[String],
    answers: List<Answer>,
    streams: Streams<S, O, T>,
) -> ServedInput<S, O, T>
    ensures served { IfOk result.served (λ s. HasServed loaded (map string_bytes tags.now) answers (streams_as S.state O.state T.state streams) (streams_as S.state O.state T.state result.streams) s.end s.sent) }
    ensures unused { OnErr result.served (streams_as S.state O.state T.state result.streams ≡ streams_as S.state O.state T.state streams) }
    ensures goes_on { StreamsGoOn (streams_as S.state O.state T.state streams) (streams_as S.state O.state T.state result.streams) }
{
    let socks = loaded.forwards.has_socks();
    match made_client(alloc, loaded, tags) {
        Ok(client) => match MemDialer::new(alloc, answers) {
            Ok(dialer) => {
                if socks {
                    let outer = SocksDialer::new(alloc, dialer);
                    let Ended {
                        end,
                        dialer,
                        streams,
                    } = serve_client(alloc, way, client, outer, streams);
                    let inner = dialer.into_inner();
                    ServedInput {
                        served: Ok(served_session(alloc, end, &inner)),
                        streams,
                    }
                } else {
                    let Ended {
                        end,
                        dialer,
                        streams,
                    } = serve_client(alloc, way, client, dialer, streams);
                    ServedInput {
                        served: Ok(served_session(alloc, end, &dialer)),
                        streams,
                    }
                }
            }
            Err(Mem) => ServedInput {
                served: Err(Mem),
                streams,
            },
        },
        Err(Mem) => ServedInput {
            served: Err(Mem),
            streams,
        },
    }
}

/// A session that ended so, with the text of SENT for what was sent over the links of a dialer.
fn served_session(alloc: Global, end: SessionEnd, dialer: &MemDialer) -> ServedSession
    ensures end { result.end ≡ end }
    ensures sent { IfSome result.sent (λ text. text ≡ sent_text (finished_links (⟦<MemDialer as Dialer>⟧.state dialer.now).dials)) }
{
    ServedSession {
        end,
        sent: made_sent(alloc, dialer.links()),
    }
}

/// Puts SENT behind a session, unless memory was wanting in it or for the text.
fn put_served<F: Files>(files: &mut F, name: &str, served: ServedSession) -> Status
    ensures puts { (text : List ℕ) → ((x : List ℕ) → served.sent ≡ Some x → x ≡ text) → PutsAfter (F.state files.old) (F.state files.new) name.now text served.end result }
    ensures go_on { FilesGoOn (F.state files.old) (F.state files.new) }
{
    let ServedSession { end, sent } = served;
    match sent {
        Some(text) => put_sent(files, name, text.as_bytes(), end),
        None => Status::NoMemory,
    }
}

/// Puts SENT behind a session, unless memory was wanting in it.
fn put_sent<F: Files>(files: &mut F, name: &str, text: &[u8], end: SessionEnd) -> Status
    ensures puts { PutsAfter (F.state files.old) (F.state files.new) name.now text.now end result }
    ensures go_on { FilesGoOn (F.state files.old) (F.state files.new) }
{
    if is_wanting(end) {
        return Status::NoMemory;
    }
    let put = files.put(name, text);
    status_after(end, put)
}
