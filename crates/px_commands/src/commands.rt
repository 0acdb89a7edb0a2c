// The commands by their words.
ghost use Rattle.std.specs.Prelude.{◌≡◌, map, string_bytes};
ghost use Rattle.px_base.specs.Contents.{FilesGoOn};
ghost use Rattle.px_base.specs.Moments.{ClockState};
ghost use Rattle.px_base.specs.Sinks.{SinkGoesOn};
ghost use Rattle.px_base.specs.Sources.{SourceState};
ghost use Rattle.px_commands.specs.Commands.{NamesNoPass, RunsTool, RunsWord};
ghost use Rattle.px_commands.specs.Passes.{OutsideGoesOn, tool_as};

use crate::exercises::run_exercise;
use crate::loads::{run_check, run_show};
use crate::parses::{parse_check, parse_exercise, parse_pass, parse_show};
use crate::passes::run_pass;
use crate::reports::report;
use crate::statuses::{Status, USAGE};
use crate::tools::{EndedTool, RanTool, ToolParts};
use crate::words::{read_check, read_exercise, read_pass, read_show};
use px_base::{Clock, Files, Mem, Sink, Source};
use px_ways::Way;
use std::alloc::Global;
use std::thread::Threads;

/// Runs the command that the words name, the tunnels of `pass` in that way, and gives the parts back with the exit status: 0 where its whole result was given, 1 where the
/// configuration doesn't load, 2 where the words aren't of the grammar, 3 after a read fault, 4 after a write fault, 5 where
/// memory was wanting, 6 where the URL of `show` isn't read, and 8 where ORIGIN isn't there, is too large or not of its format.
pub fn run_tool<R: Threads + Sync, F: Files, S: Source, O: Sink, E: Sink, T: Clock>(
    alloc: Global,
    way: &Way<'_, R>,
    words: &[String],
    parts: ToolParts<F, S, O, E, T>,
) -> RanTool<F, S, O, E, T>
    ensures runs { RunsTool (map string_bytes words.now) (tool_as F.state S.state O.state E.state T.state parts) (tool_as F.state S.state O.state E.state T.state result.parts) result.status }
    ensures goes_on { OutsideGoesOn (tool_as F.state S.state O.state E.state T.state parts) (tool_as F.state S.state O.state E.state T.state result.parts) }
{
    let EndedTool { status, parts } = run_words(alloc, way, words, parts);
    RanTool {
        status: status.code(),
        parts,
    }
}

/// The same before the status is a number.
fn run_words<R: Threads + Sync, F: Files, S: Source, O: Sink, E: Sink, T: Clock>(
    alloc: Global,
    way: &Way<'_, R>,
    words: &[String],
    parts: ToolParts<F, S, O, E, T>,
) -> EndedTool<F, S, O, E, T>
    ensures runs { RunsWord (map string_bytes words.now) (tool_as F.state S.state O.state E.state T.state parts) (tool_as F.state S.state O.state E.state T.state result.parts) result.status }
    ensures goes_on { OutsideGoesOn (tool_as F.state S.state O.state E.state T.state parts) (tool_as F.state S.state O.state E.state T.state result.parts) }
{
    match read_pass(words) {
        Some(pass) => match parse_pass(alloc, words, pass) {
            Ok(pass) => run_pass(alloc, way, pass, parts),
            Err(Mem) => EndedTool {
                status: Status::NoMemory,
                parts,
            },
        },
        None => {
            let ToolParts {
                mut files,
                input,
                mut out,
                mut err,
                clock,
            } = parts;
            let status = run_other(alloc, way, words, &mut files, &mut out, &mut err);
            let parts = ToolParts {
                files,
                input,
                out,
                err,
                clock,
            };
            EndedTool { status, parts }
        }
    }
}

/// Runs the command that the words name, where it isn't `pass`. The input and the clock aren't used.
fn run_other<R: Threads + Sync, F: Files, O: Sink, E: Sink>(
    alloc: Global,
    way: &Way<'_, R>,
    words: &[String],
    files: &mut F,
    out: &mut O,
    err: &mut E,
) -> Status
    ensures runs { NamesNoPass (map string_bytes words.now) → (input : SourceState) (clock : ClockState) → RunsWord (map string_bytes words.now)
        (record { files = F.state files.old; input = input; out = O.state out.old; errors = E.state err.old; clock = clock })
        (record { files = F.state files.new; input = input; out = O.state out.new; errors = E.state err.new; clock = clock }) result }
    ensures files_go_on { FilesGoOn (F.state files.old) (F.state files.new) }
    ensures out_goes_on { SinkGoesOn (O.state out.old) (O.state out.new) }
    ensures err_goes_on { SinkGoesOn (E.state err.old) (E.state err.new) }
{
    match read_check(words) {
        Some(config) => match parse_check(alloc, words, config) {
            Ok(config) => run_check(alloc, config, files, out, err),
            Err(Mem) => Status::NoMemory,
        },
        None => match read_show(words) {
            Some(show) => match parse_show(alloc, words, show) {
                Ok(show) => run_show(alloc, show, files, out, err),
                Err(Mem) => Status::NoMemory,
            },
            None => match read_exercise(words) {
                Some(number) => match parse_exercise(alloc, words, number) {
                    Ok(number) => run_exercise(alloc, way, number, out, err),
                    Err(Mem) => Status::NoMemory,
                },
                None => report(err, USAGE, Status::Usage),
            },
        },
    }
}
