//! What a case wants of its runs, and where a run gives something else.
use crate::cases::fields::{Case, CaseField, Key};
use crate::cases::runs::{Seen, UNTOUCHED};
use crate::cases::setups::{Setup, number_of, text_bytes};
use px_leaf_rows::{Fault, Misread, decoded};
use std::alloc::Global;

/// What a run is to show under a key, and the line that says so.
#[derive(Drop)]
struct Want<'a> {
    line: usize,
    key: Key<'a>,
    bytes: Vec<u8>,
}

/// What is wanted of a run in which one more call failed: what it shows is one of the words, or the text.
#[derive(Drop)]
struct FailedWant<'a> {
    line: usize,
    what: &'a str,
    words: &'a str,
    text: Vec<u8>,
}

impl FailedWant<'_> {
    /// Whether its text stands behind a front of the case's own output.
    fn is_behind(&self) -> bool {
        self.words.starts_with("behind ")
    }

    /// How the last exchange ends in the runs whose output it speaks of.
    fn ending(&self) -> &str {
        self.words.strip_prefix("behind ").unwrap_or(self.words)
    }
}

/// The most links that are compared.
const LINK_LIMIT: usize = 1_000;

/// A line of a case that a run doesn't meet: what it wants, and what came.
#[derive(Drop)]
pub struct CaseDifference<'d> {
    pub line: usize,
    pub want: &'d [u8],
    pub got: &'d [u8],
}

/// What a case wants of its own run, and of one in which one more call failed.
#[derive(Drop)]
pub struct Wants<'a> {
    alloc: Global,
    whole: Vec<Want<'a>>,
    failed: Vec<FailedWant<'a>>,
    /// In how many runs one more call fails, and the line that says so.
    pub times: Option<(usize, u64)>,
}

/// The text of SENT that a field stands for: for `HOST:PORT`, or `HOST:PORT times N`, entries with the number of bytes and those.
fn sent_text(alloc: Global, words: &str, bytes: &[u8]) -> Result<Vec<u8>, Fault> {
    let (host, times) = match words.split_once(" times ") {
        Some((host, times)) => (host, number_of::<u64>(times)?),
        None => (words, 1),
    };
    let length = bytes.len();
    let mut text = Vec::new(alloc);
    for _ in 0..times {
        text.extend_from_slice(format!(in alloc; "{host} {length}\n")?.as_bytes())?;
        text.extend_from_slice(bytes)?;
    }
    Ok(text)
}

impl<'a> Wants<'a> {
    /// What the fields of a case want. Where it doesn't say else, the status is 0 and the error output is empty.
    pub(crate) fn of_case(
        alloc: Global,
        case: &Case<'a>,
        setup: &Setup<'_>,
    ) -> Result<Wants<'a>, Misread> {
        let mut wants = Wants {
            alloc,
            whole: Vec::new(alloc),
            failed: Vec::new(alloc),
            times: None,
        };
        let line_end = if setup.is_pass() { "\r\n" } else { "\n" };
        for field in &case.fields {
            wants
                .add(field, line_end)
                .map_err(|fault| fault.at(field.line))?;
        }
        wants.end(case).map_err(|fault| case.misread(fault))?;
        Ok(wants)
    }

    fn add(&mut self, field: &CaseField<'a>, line_end: &str) -> Result<(), Fault> {
        let (alloc, texts) = (self.alloc, field.texts.as_slice());
        let bytes = match field.key {
            Key::Out => text_bytes(alloc, texts, line_end)?,
            Key::Err => text_bytes(alloc, texts, "\n")?,
            Key::Status | Key::End | Key::Notes => decoded(alloc, field.words)?,
            Key::Sent => return self.add_sent(field),
            Key::Failed => return self.add_failed(field, line_end),
            Key::File(_) | Key::Turn | Key::Words | Key::In | Key::Origin => return Ok(()),
            Key::Clock | Key::Cuts | Key::Fails => return Ok(()),
        };
        self.add_whole(field.line, field.key, bytes)
    }

    fn add_whole(&mut self, line: usize, key: Key<'a>, bytes: Vec<u8>) -> Result<(), Fault> {
        Ok(self.whole.push(Want { line, key, bytes })?)
    }

    /// Adds to the text of SENT; `nothing` where it is empty, and `untouched` where it isn't put.
    fn add_sent(&mut self, field: &CaseField<'a>) -> Result<(), Fault> {
        let bytes = text_bytes(self.alloc, field.texts.as_slice(), "\r\n")?;
        let text = match field.words {
            "nothing" => Vec::new(self.alloc),
            "untouched" => Vec::from_slice(self.alloc, UNTOUCHED)?,
            words => sent_text(self.alloc, words, bytes.as_slice())?,
        };
        match self.whole.last_mut() {
            Some(before) if before.key == Key::Sent => {
                Ok(before.bytes.extend_from_slice(text.as_slice())?)
            }
            _ => self.add_whole(field.line, field.key, text),
        }
    }

    fn add_failed(&mut self, field: &CaseField<'a>, line_end: &str) -> Result<(), Fault> {
        let text = text_bytes(self.alloc, field.texts.as_slice(), line_end)?;
        match field.words.split_once(' ') {
            Some(("times", words)) => {
                self.times = Some((field.line, number_of(words)?));
                Ok(())
            }
            Some((what, words)) => Ok(
                self.failed.push(FailedWant {
                    line: field.line,
                    what,
                    words,
                    text,
                })?,
            ),
            None => Err(Fault::Form("`failed` is before what is shown and the words for it")),
        }
    }

    /// Puts what is wanted where the case doesn't say else.
    fn end(&mut self, case: &Case<'a>) -> Result<(), Fault> {
        if self.whole.is_empty() {
            return Err(Fault::Form("the case wants nothing"));
        }
        if !case.has(Key::Status) {
            self.add_whole(case.line, Key::Status, decoded(self.alloc, "0")?)?;
        }
        if !case.has(Key::Err) {
            self.add_whole(case.line, Key::Err, Vec::new(self.alloc))?;
        }
        Ok(())
    }

    /// The output that is wanted.
    pub(crate) fn out(&self) -> &[u8] {
        self.wanted(Key::Out)
    }

    /// What is wanted under a key.
    fn wanted(&self, key: Key<'_>) -> &[u8] {
        for want in &self.whole {
            if want.key == key {
                return want.bytes.as_slice();
            }
        }
        &[]
    }

    /// Whether a line `failed out` names how an exchange ended.
    fn names_ending(&self, ending: Option<&[u8]>) -> bool {
        self.failed.iter().any(|line| line.what == "out"
            && Some(line.ending().as_bytes()) == ending)
    }

    /// Whether the output of a run is as that line `failed out` wants it, or another line speaks of it: that which names how the last
    /// exchange ended, else that with `prefix`.
    fn meets_out(&self, want: &FailedWant<'_>, seen: &Seen) -> bool {
        let ending = seen.last_of_end();
        if want.words == "prefix" {
            return self.names_ending(ending) || self.out().starts_with(seen.out());
        }
        if Some(want.ending().as_bytes()) != ending {
            return true;
        }
        match seen.out().strip_suffix(want.text.as_slice()) {
            Some(front) if want.is_behind() => self.out().starts_with(front),
            Some(front) => front.is_empty(),
            None => false,
        }
    }

    /// The first line that the case's own run doesn't meet.
    pub(crate) fn difference<'d>(&'d self, seen: &'d Seen) -> Option<CaseDifference<'d>> {
        for want in &self.whole {
            if let Some(got) = seen.shown(want.key) {
                if got != want.bytes.as_slice() {
                    return Some(CaseDifference {
                        line: want.line,
                        want: want.bytes.as_slice(),
                        got,
                    });
                }
            }
        }
        None
    }

    /// The first line `failed` that a run with one more failing call doesn't meet.
    pub(crate) fn failed_difference<'d>(&'d self, seen: &'d Seen) -> Option<CaseDifference<'d>> {
        for want in &self.failed {
            let (met, got) = match want.what {
                "out" => (self.meets_out(want, seen), seen.out()),
                "err" => front_of(self.wanted(Key::Err), seen.shown(Key::Err)),
                "sent" => fronts_of(self.wanted(Key::Sent), seen.shown(Key::Sent)),
                "status" => one_of(want.words, seen.shown(Key::Status)),
                "end" => one_of(want.words, seen.first_of_end()),
                "ending" => one_of(want.words, seen.last_of_end()),
                _ => (false, seen.out()),
            };
            if !met {
                return Some(CaseDifference {
                    line: want.line,
                    want: want.words.as_bytes(),
                    got,
                });
            }
        }
        None
    }
}

/// Whether a run shows one of the words, or nothing of the kind; and what it shows.
fn one_of<'d>(words: &str, shown: Option<&'d [u8]>) -> (bool, &'d [u8]) {
    match shown {
        Some(got) => (words.split(' ').any(|word| word.as_bytes() == got), got),
        None => (true, &[]),
    }
}

/// Whether a run shows a front of that, or nothing of the kind; and what it shows.
fn front_of<'d>(whole: &[u8], shown: Option<&'d [u8]>) -> (bool, &'d [u8]) {
    match shown {
        Some(got) => (whole.starts_with(got), got),
        None => (true, &[]),
    }
}

/// Whether a run's links were the first ones of the whole, each sent a front, or there is nothing of the kind; and what they were
/// sent.
fn fronts_of<'d>(whole: &[u8], shown: Option<&'d [u8]>) -> (bool, &'d [u8]) {
    match shown {
        Some(got) => (got == UNTOUCHED || are_fronts(whole, got), got),
        None => (true, &[]),
    }
}

/// Whether the entries of SENT are the first ones of the whole, each with a front.
fn are_fronts(whole: &[u8], sent: &[u8]) -> bool {
    let (mut whole, mut sent) = (whole, sent);
    for _ in 0..LINK_LIMIT {
        let Some(entry) = first_entry(sent) else {
            return sent.is_empty();
        };
        match first_entry(whole) {
            Some(other) if other.host == entry.host && other.bytes.starts_with(entry.bytes) => {
                whole = other.rest;
                sent = entry.rest;
            }
            _ => return false,
        }
    }
    false
}

/// An entry of SENT, and what is behind it.
#[derive(Clone, Copy)]
struct SentEntry<'d> {
    host: &'d str,
    bytes: &'d [u8],
    rest: &'d [u8],
}

/// The first entry of a text of SENT.
fn first_entry(text: &[u8]) -> Option<SentEntry<'_>> {
    let line = text.split(|byte| *byte == b'\n').next()?;
    let rest = text.strip_prefix(line)?.strip_prefix(b"\n")?;
    let (host, length) = str::from_utf8(line).ok()?.rsplit_once(' ')?;
    let length = number_of::<usize>(length).ok()?;
    Some(SentEntry {
        host,
        bytes: rest.get(..length)?,
        rest: rest.get(length..)?,
    })
}
