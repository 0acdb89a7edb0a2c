// The commands that load a configuration and print: `check` and `show`.
ghost use Rattle.std.specs.Prelude.{◌≡◌, ◌≢◌, IfOk, IsTrue, map, string_bytes};
ghost use Rattle.px_base.specs.Contents.{FilesGoOn, FilesState, Unchanged};
ghost use Rattle.px_base.specs.Moments.{ClockState};
ghost use Rattle.px_base.specs.Sinks.{SinkGoesOn};
ghost use Rattle.px_base.specs.Sources.{SourceState};
ghost use Rattle.px_config.specs.FaultLines.{fault_text};
ghost use Rattle.px_commands.specs.Loads.{ReportsOrWants, RunsCheck, RunsShow, ShowsBy, load_status};
ghost use Rattle.px_pages.specs.Pages.{url_fault_line};
ghost use Rattle.px_show.specs.Showing.{shown};

use crate::reports::report;
use crate::statuses::Status;
use crate::texts::tag_texts;
use crate::words::ShowWords;
use px_base::{Files, Mem, Sink, Text};
use px_config::{Config, LoadFault, load};
use px_pages::url_fault_line;
use px_patterns::{Url, UrlFault};
use px_show::{check, show};
use std::alloc::Global;

/// Prints why a configuration doesn't load, and gives the status. Where memory is wanting for the text nothing is printed.
pub fn report_load<E: Sink>(alloc: Global, err: &mut E, fault: &LoadFault) -> Status
    ensures reports { ReportsOrWants (E.state err.old) (E.state err.new) (fault_text fault.now) (load_status fault.now) result }
    ensures goes_on { SinkGoesOn (E.state err.old) (E.state err.new) }
{
    match fault {
        LoadFault::Spelled { .. } => match fault.print(alloc) {
            Ok(text) => report(err, text.as_bytes(), Status::NotLoaded),
            Err(Mem) => Status::NoMemory,
        },
        LoadFault::Read { .. } => match fault.print(alloc) {
            Ok(text) => report(err, text.as_bytes(), Status::ReadFailed),
            Err(Mem) => Status::NoMemory,
        },
        LoadFault::Mem => Status::NoMemory,
    }
}

/// Runs `check`: loads CONFIG, and prints its notes and counts.
#[tactic(auto, using(crate::proofs::LoadLemmas::check_rules))]
pub fn run_check<F: Files, O: Sink, E: Sink>(
    alloc: Global,
    config: &str,
    files: &mut F,
    out: &mut O,
    err: &mut E,
) -> Status
    ensures runs { (input : SourceState) (clock : ClockState) → RunsCheck config.now
        (record { files = F.state files.old; input = input; out = O.state out.old; errors = E.state err.old; clock = clock })
        (record { files = F.state files.new; input = input; out = O.state out.new; errors = E.state err.new; clock = clock }) result }
    ensures files_go_on { FilesGoOn (F.state files.old) (F.state files.new) }
    ensures out_goes_on { SinkGoesOn (O.state out.old) (O.state out.new) }
    ensures err_goes_on { SinkGoesOn (E.state err.old) (E.state err.new) }
{
    match load(alloc, files, config) {
        Ok(loaded) => match check(alloc, &loaded) {
            Ok(text) => report(out, text.as_bytes(), Status::Done),
            Err(Mem) => Status::NoMemory,
        },
        Err(fault) => report_load(alloc, err, &fault),
    }
}

/// Runs `show`: loads CONFIG, reads the URL, and prints what the configuration does to it.
#[tactic(auto, using(crate::proofs::LoadLemmas::show_rules))]
pub fn run_show<F: Files, O: Sink, E: Sink>(
    alloc: Global,
    words: ShowWords<'_>,
    files: &mut F,
    out: &mut O,
    err: &mut E,
) -> Status
    ensures runs { (input : SourceState) (clock : ClockState) → RunsShow words.entry.config.now words.entry.url.now (map string_bytes words.entry.tags.now)
        (record { files = F.state files.old; input = input; out = O.state out.old; errors = E.state err.old; clock = clock })
        (record { files = F.state files.new; input = input; out = O.state out.new; errors = E.state err.new; clock = clock }) result }
    ensures files_go_on { FilesGoOn (F.state files.old) (F.state files.new) }
    ensures out_goes_on { SinkGoesOn (O.state out.old) (O.state out.new) }
    ensures err_goes_on { SinkGoesOn (E.state err.old) (E.state err.new) }
{
    match load(alloc, files, words.config) {
        Ok(loaded) => show_loaded(alloc, &loaded, words, out, err),
        Err(fault) => report_load(alloc, err, &fault),
    }
}

/// Prints what a configuration does to a URL, or why the URL isn't read.
#[tactic(auto, using(crate::proofs::LoadLemmas::url_rules))]
fn show_loaded<O: Sink, E: Sink>(
    alloc: Global,
    loaded: &Config,
    words: ShowWords<'_>,
    out: &mut O,
    err: &mut E,
) -> Status
    ensures shows { (files files' : FilesState) (input : SourceState) (clock : ClockState) → (IsTrue files.tells → Unchanged files.contents files'.contents)
        → ShowsBy loaded.now words.entry.url.now (map string_bytes words.entry.tags.now)
        (record { files = files; input = input; out = O.state out.old; errors = E.state err.old; clock = clock })
        (record { files = files'; input = input; out = O.state out.new; errors = E.state err.new; clock = clock }) result }
    ensures out_goes_on { SinkGoesOn (O.state out.old) (O.state out.new) }
    ensures err_goes_on { SinkGoesOn (E.state err.old) (E.state err.new) }
{
    match Url::read(alloc, words.url.as_bytes()) {
        Ok(url) => match show_url(alloc, loaded, &url, words.tags) {
            Ok(text) => report(out, text.as_bytes(), Status::Done),
            Err(Mem) => Status::NoMemory,
        },
        Err(UrlFault::Mem) => Status::NoMemory,
        Err(UrlFault::BadByte) => report_url(alloc, err, UrlFault::BadByte),
        Err(UrlFault::NotHttp) => report_url(alloc, err, UrlFault::NotHttp),
        Err(UrlFault::HasUser) => report_url(alloc, err, UrlFault::HasUser),
        Err(UrlFault::NoHost) => report_url(alloc, err, UrlFault::NoHost),
        Err(UrlFault::BadPort) => report_url(alloc, err, UrlFault::BadPort),
    }
}

/// What a configuration does to a URL.
fn show_url(alloc: Global, loaded: &Config, url: &Url, tags: &[String]) -> Result<Text, Mem>
    ensures { IfOk result (λ text. text ≡ shown loaded.now url.now (map string_bytes tags.now)) }
{
    let tags = tag_texts(alloc, tags)?;
    show(alloc, loaded, url, tags.as_slice())
}

/// Prints why a URL isn't read. Where memory is wanting for the text nothing is printed.
fn report_url<E: Sink>(alloc: Global, err: &mut E, fault: UrlFault) -> Status
    requires { fault ≢ UrlFault.Mem }
    ensures reports { ReportsOrWants (E.state err.old) (E.state err.new) (url_fault_line fault) Status.NoUrl result }
    ensures goes_on { SinkGoesOn (E.state err.old) (E.state err.new) }
{
    match url_fault_line(alloc, fault) {
        Ok(text) => report(err, text.as_bytes(), Status::NoUrl),
        Err(Mem) => Status::NoMemory,
    }
}
