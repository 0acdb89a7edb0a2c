//! The lines of a case file, as cases and their fields.
//!
//! `case TITLE` begins a case. Each further line is a field: a key, words, and text behind `|`. A line that begins with white space
//! and `|` is one more line of the text above it. `again`, right below `case`, stands for the fields of the case before, but for
//! those whose key the case gives itself. Empty lines and those that begin with `#` say nothing.
use px_leaf_rows::{Fault, Misread};
use std::alloc::Global;

/// What a field of a case says.
#[derive(Clone, Copy, PartialEq, Eq)]
pub enum Key<'a> {
    /// A file of that name.
    File(&'a str),
    /// The files below are those of the next configuration.
    Turn,
    Words,
    In,
    Origin,
    Clock,
    Cuts,
    Fails,
    Failed,
    Out,
    Err,
    Status,
    Sent,
    End,
    Notes,
}

impl<'a> Key<'a> {
    /// The key that is written so. A file's name has a dot or a slash, but for `c`, `config` and `o`.
    fn by_name(name: &'a str) -> Result<Key<'a>, Fault> {
        match name {
            "turn" => Ok(Key::Turn),
            "words" => Ok(Key::Words),
            "in" => Ok(Key::In),
            "origin" => Ok(Key::Origin),
            "clock" => Ok(Key::Clock),
            "cuts" => Ok(Key::Cuts),
            "fails" => Ok(Key::Fails),
            "failed" => Ok(Key::Failed),
            "out" => Ok(Key::Out),
            "err" => Ok(Key::Err),
            "status" => Ok(Key::Status),
            "sent" => Ok(Key::Sent),
            "end" => Ok(Key::End),
            "notes" => Ok(Key::Notes),
            "c" | "config" | "o" => Ok(Key::File(name)),
            _ if name.contains('.') || name.contains('/') => Ok(Key::File(name)),
            _ => Err(Fault::Form("no field has such a key")),
        }
    }
}

/// A field: the line where it begins, or the `again` that it is of, its key, the words behind the key, and the lines of its text.
#[derive(Drop)]
pub struct CaseField<'a> {
    pub line: usize,
    pub key: Key<'a>,
    pub words: &'a str,
    pub texts: Vec<&'a str>,
    /// Whether it is one of the case before.
    inherited: bool,
}

/// A case: the line where it begins, and its fields.
#[derive(Drop)]
pub struct Case<'a> {
    pub line: usize,
    pub fields: Vec<CaseField<'a>>,
}

impl<'a> Case<'a> {
    /// Whether it has a field with that key.
    pub(crate) fn has(&self, key: Key<'_>) -> bool {
        self.fields.iter().any(|field| field.key == key)
    }

    /// A fault of the case as a whole.
    pub(crate) fn misread(&self, fault: Fault) -> Misread {
        fault.at(self.line)
    }

    /// Its fields for the case behind, which says so at that line.
    fn inherited(&self, alloc: Global, line: usize) -> Result<Vec<CaseField<'a>>, Fault> {
        let mut fields = Vec::new(alloc);
        for field in &self.fields {
            fields.push(CaseField {
                line,
                key: field.key,
                words: field.words,
                texts: Vec::from_slice(alloc, field.texts.as_slice())?,
                inherited: true,
            })?;
        }
        Ok(fields)
    }
}

/// Takes up a line.
fn take_line<'a>(
    alloc: Global,
    cases: &mut Vec<Case<'a>>,
    line: usize,
    text: &'a str,
) -> Result<(), Fault> {
    let (head, text) = match text.split_once('|') {
        Some((head, text)) => (head.trim(), Some(text.strip_prefix(' ').unwrap_or(text))),
        None => (text.trim(), None),
    };
    let (name, words) = match head.split_once(' ') {
        Some((name, words)) => (name, words.trim()),
        None => (head, ""),
    };
    match name {
        "" => add_text(cases, text.unwrap_or("")),
        "case" => begin_case(alloc, cases, line, words),
        "again" => begin_again(alloc, cases, line),
        _ => {
            let mut texts = Vec::new(alloc);
            if let Some(text) = text {
                texts.push(text)?;
            }
            add_field(
                cases,
                CaseField {
                    line,
                    key: Key::by_name(name)?,
                    words,
                    texts,
                    inherited: false,
                },
            )
        }
    }
}

/// Adds a line to the text above it.
fn add_text<'a>(cases: &mut Vec<Case<'a>>, text: &'a str) -> Result<(), Fault> {
    let above = cases.last_mut().and_then(|case| case.fields.last_mut());
    match above {
        Some(field) => Ok(field.texts.push(text)?),
        None => Err(Fault::Form("a line of text stands below no field")),
    }
}

fn begin_case(
    alloc: Global,
    cases: &mut Vec<Case<'_>>,
    line: usize,
    title: &str,
) -> Result<(), Fault> {
    if title.is_empty() {
        return Err(Fault::Form("the case doesn't say what it shows"));
    }
    let fields = Vec::new(alloc);
    Ok(cases.push(Case { line, fields })?)
}

/// Gives the case the fields of the one before.
fn begin_again(alloc: Global, cases: &mut Vec<Case<'_>>, line: usize) -> Result<(), Fault> {
    let fields = match cases.as_slice() {
        [.., before, _] => before.inherited(alloc, line)?,
        _ => return Err(Fault::Form("no case stands before this one")),
    };
    match cases.last_mut() {
        Some(case) if case.fields.is_empty() => case.fields = fields,
        _ => return Err(Fault::Form("`again` stands right below the first line of its case")),
    }
    Ok(())
}

fn add_field<'a>(cases: &mut Vec<Case<'a>>, field: CaseField<'a>) -> Result<(), Fault> {
    match cases.last_mut() {
        Some(case) => {
            let key = field.key;
            case.fields
                .retain(|other| !other.inherited || other.key != key);
            Ok(case.fields.push(field)?)
        }
        None => Err(Fault::Form("a field stands before the first case")),
    }
}

/// The cases of a file's text.
pub(crate) fn read_cases<'a>(alloc: Global, text: &'a str) -> Result<Vec<Case<'a>>, Misread> {
    let mut cases = Vec::new(alloc);
    for (place, text) in text.lines().enumerate() {
        let line = place.saturating_add(1);
        if !text.trim().is_empty() && !text.starts_with('#') {
            take_line(alloc, &mut cases, line, text).map_err(|fault| fault.at(line))?;
        }
    }
    Ok(cases)
}
