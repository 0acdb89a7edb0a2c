//! Helmthread: a filtering HTTP proxy. The program: a command over the files, the streams and the network of this machine.
#![tactic(auto)]

mod help;
mod logs;

use help::asked_text;
use logs::StdoutLogs;
use px_base::{DiskFiles, ReaderSource, SystemClock, WriterSink};
use px_commands::{Status, ToolParts, USAGE, report, run_tool};
use px_doors::{SocketDoors, Times};
use px_kept_files::KeptFiles;
use px_serve_command::{DeskParts, run_proxy};
use px_ways::Way;
use std::process::ExitCode;
use std::rt::Env;
use std::{env, io};

/// The words after the program's name.
fn program_words<R: Env + AllocGlobal>(rt: &R) -> io::Result<Vec<String>> {
    let mut words = Vec::new(rt.alloc());
    for word in env::args(rt)?.skip(1) {
        words.push(word)?;
    }
    Ok(words)
}

/// Whether the words are for `run_proxy`: those whose first is `serve`.
fn is_serve(words: &[String]) -> bool {
    match words.first() {
        Some(word) => word.as_str() == "serve",
        None => false,
    }
}

fn main(rt: HostRuntime) -> ExitCode {
    let alloc = rt.alloc();
    let mut err = WriterSink::new(rt.stderr(), 0);
    let words = match program_words(&rt) {
        Ok(words) => words,
        Err(error) => {
            let status = if error.kind() == io::ErrorKind::OutOfMemory {
                Status::NoMemory
            } else {
                report(&mut err, USAGE, Status::Usage)
            };
            return ExitCode::from(status.code());
        }
    };
    if let Some(text) = asked_text(&words) {
        let mut out = WriterSink::new(rt.stdout(), 0);
        return ExitCode::from(report(&mut out, text, Status::Done).code());
    }
    if is_serve(&words) {
        let files = KeptFiles::new(alloc, &rt);
        let doors = SocketDoors::new(alloc, &rt, Times::usual());
        let parts = DeskParts { files, doors, err };
        let logs = StdoutLogs::new(rt.stdout());
        let proxied = run_proxy(alloc, &rt, &words, parts, &logs);
        return ExitCode::from(proxied.status);
    }
    let parts = ToolParts {
        files: DiskFiles::new(alloc, &rt),
        input: ReaderSource::new(rt.stdin(), 0),
        out: WriterSink::new(rt.stdout(), 0),
        err,
        clock: SystemClock::new(&rt),
    };
    let way: Way<'_, HostRuntime> = Way::InTurn;
    let ran = run_tool(alloc, &way, &words, parts);
    ExitCode::from(ran.status)
}
