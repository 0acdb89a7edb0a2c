//! The rows of the product's rules: each argument is a file of rows, and each row is held against what the libraries give.
#![tactic(auto)]

mod cases;
mod reports;

use crate::reports::print_report;
use px_leaf_rows::{Fault, Misread, Report, run as run_rows};
use std::process::ExitCode;
use std::rt::{Env, Files};
use std::thread::Threads;
use std::{env, fs, io};

/// The name of a file without its folder and without what stands behind its last dot, and what stands there.
fn stem_and_ending(name: &str) -> Option<(&str, &str)> {
    let name = match name.rsplit_once('/') {
        Some((_, name)) => name,
        None => name,
    };
    name.rsplit_once('.')
}

/// Runs the rows of a file's text: a case each, or a line each, by the ending of the file's name.
fn run_text<R: Threads + Sync + AllocGlobal>(
    rt: &R,
    name: &str,
    text: &[u8],
    report: &mut Report,
) -> Result<(), Misread> {
    let Ok(text) = str::from_utf8(text) else {
        return Err(Fault::Form("the file isn't UTF-8").at(0));
    };
    if !text.is_empty() && !text.ends_with('\n') {
        let last = text.lines().count();
        return Err(Fault::Form("the file is cut: its last line isn't ended").at(last));
    }
    match stem_and_ending(name) {
        Some((kind, "tsv")) => run_rows(rt.alloc(), kind, text, report),
        Some((_, "case")) => cases::run(rt, text, report),
        _ => Err(Fault::Form("neither a .tsv nor a .case file").at(0)),
    }
}

/// Runs the rows of a file, prints what they came to, and says whether each gave what it wants.
fn run_file<R: Files + Print + Threads + Sync + AllocGlobal>(
    rt: &R,
    name: &str,
) -> io::Result<bool> {
    let text = match fs::read(rt, name) {
        Ok(text) => text,
        Err(error) => {
            println!(rt; "{name}:0: isn't read: {error}")?;
            return Ok(false);
        }
    };
    let mut report = Report::new(rt.alloc());
    let ran = run_text(rt, name, text.as_slice(), &mut report);
    print_report(rt, name, &report, ran)
}

/// Runs the files in turn, and says whether each row of each gave what it wants.
fn run_files<R: Env + Files + Print + Threads + Sync + AllocGlobal>(rt: &R) -> io::Result<bool> {
    let mut right = true;
    for name in env::args(rt)?.skip(1) {
        right = run_file(rt, name.as_str())? && right;
    }
    Ok(right)
}

fn main(rt: HostRuntime) -> io::Result<ExitCode> {
    let right = run_files(&rt)?;
    Ok(ExitCode::from(if right { 0 } else { 1 }))
}
