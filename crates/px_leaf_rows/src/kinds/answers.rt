//! Answers as they are returned: header actions, and bodies that are passed or filtered.
use crate::faults::Fault;
use crate::kinds::bodies::Cut;
use crate::kinds::made::{filters_of, head_of, push_fields, said, set_of, vars_of, yes_or_no};
use crate::leaves::Row;
use px_answers::{AnswerOutcome, BodyPlan, Framed, HeaderLines, Passage, Terms};
use px_base::{List, Text};
use px_fields::{Field, is_held_back_of_response};
use px_filter_files::Filters;
use px_framing::response_body;
use px_head::ResponseHead;
use px_headers::{HeaderRules, ServerOut, is_text, server_headers};
use std::alloc::Global;

/// The status line and the fields of an answer with that head, behind the actions of the row's words at its moment.
fn changed(row: &Row<'_>, filters: &Filters, mut head: ResponseHead) -> Result<ServerOut, Fault> {
    let moment = row.number("moment")?;
    let set = set_of(row)?;
    let vars = vars_of(row.alloc, b"")?;
    let mut warm = filters.warm(row.alloc)?;
    let rules = HeaderRules {
        set: &set,
        filters,
        vars: &vars,
    };
    let out = server_headers(row.alloc, &mut head, &rules, &mut warm, moment)?;
    Ok(out)
}

/// The status line and the fields of an answer, behind the actions of words at a moment.
pub(crate) fn responses(row: &Row<'_>) -> Result<Text, Fault> {
    let head = ResponseHead::read(row.alloc, head_of(row)?.as_bytes())?;
    let ServerOut { first_line, fields } = changed(row, &filters_of(row)?, head)?;
    let mut out = first_line;
    push_fields(row.alloc, &mut out, fields.as_slice())?;
    Ok(out)
}

/// Whether an answer is a text by the actions of words.
pub(crate) fn texts(row: &Row<'_>) -> Result<Text, Fault> {
    let head = ResponseHead::read(row.alloc, head_of(row)?.as_bytes())?;
    yes_or_no(row.alloc, is_text(head.fields.as_slice(), &set_of(row)?))
}

/// The head as header actions that change nothing hand it on.
fn lines(alloc: Global, head: &ResponseHead) -> Result<HeaderLines, Fault> {
    let mut fields = List::new(alloc);
    for field in head.fields.as_slice() {
        if !is_held_back_of_response(field.name.as_bytes()) {
            let name = Text::from_bytes(alloc, field.name.as_bytes())?;
            let value = Text::from_bytes(alloc, field.value.as_bytes())?;
            fields.add(Field { name, value })?;
        }
    }
    Ok(HeaderLines {
        first_line: head.first_line(alloc)?,
        fields,
    })
}

/// What the request says of its answer.
fn terms(row: &Row<'_>) -> Result<Terms, Fault> {
    Ok(Terms {
        minor: row.number("minor")?,
        keep: row.is("keep")?,
        text: row.is("text")?,
        filters: row.items("names")?,
        limit: row.number("limit")?,
    })
}

/// The head of an answer, its body's rule and what the request says of it, as they are framed.
fn framed(row: &Row<'_>, files: &Filters) -> Result<Framed, Fault> {
    let block = head_of(row)?;
    let head = ResponseHead::read(row.alloc, block.as_bytes())?;
    let plan = plan(row, files, &head)?;
    Ok(plan.behind(lines(row.alloc, &head)?))
}

/// What is to become of the body of an answer with that head.
fn plan(row: &Row<'_>, files: &Filters, head: &ResponseHead) -> Result<BodyPlan, Fault> {
    let rule = response_body(head, row.word("method")?.as_bytes())?;
    let terms = terms(row)?;
    Ok(BodyPlan::new(row.alloc, files, head, rule, terms)?)
}

/// Adds what is returned of an answer whose body comes in pieces.
fn pass(
    row: &Row<'_>,
    files: &Filters,
    pieces: &[&[u8]],
    out: &mut Text,
) -> Result<Option<AnswerOutcome>, Fault> {
    let framed = framed(row, files)?;
    let vars = vars_of(row.alloc, b"")?;
    let mut warm = files.warm(row.alloc)?;
    let mut passage = Passage::new(row.alloc, &mut warm, vars, framed, out)?;
    for piece in pieces {
        passage.feed(&mut warm, piece, out)?;
    }
    passage.end(&mut warm, row.is("fails")?, out)?;
    Ok(passage.ended())
}

/// What is returned of an answer whose body comes in pieces, and behind it how, and whether the connection is kept.
fn returned(row: &Row<'_>, files: &Filters, pieces: &[&[u8]]) -> Result<Text, Fault> {
    let mut out = Text::new(row.alloc);
    let Some(AnswerOutcome { returned, keep }) = pass(row, files, pieces, &mut out)? else {
        return said(row.alloc, "the answer isn't ended");
    };
    let keep = if keep { "keep" } else { "close" };
    out.push_all(format!(in row.alloc; " | {returned:?} | {keep}")?.as_bytes())?;
    Ok(out)
}

/// What is returned of an answer, if it is the same however its body is cut.
pub(crate) fn answers(row: &Row<'_>) -> Result<Text, Fault> {
    let files = filters_of(row)?;
    let body = row.bytes("body")?;
    let whole = returned(row, &files, &[body.as_slice()])?;
    for cut in Cut::all(row.alloc, body.len())?.iter() {
        let pieces = cut.pieces(row.alloc, body.as_slice())?;
        let got = returned(row, &files, pieces.as_slice())?;
        if got.as_bytes() != whole.as_bytes() {
            return cut.said(row.alloc, &got);
        }
    }
    Ok(whole)
}
