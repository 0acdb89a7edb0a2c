//! Where heads end, heads that are read, and field lines.
use crate::faults::Fault;
use crate::kinds::made::{push_item, said};
use crate::leaves::Row;
use px_base::Text;
use px_fields::{is_held_back_of_request, is_held_back_of_response, read_field_line};
use px_head::{
    HeadEnd, RequestHead, ResponseHead, TOO_LONG_NAME, TOO_LONG_NUMBER, find_head, print_head,
};
use std::alloc::Global;

/// Where the head block at the front of bytes ends, under a limit.
pub(crate) fn blocks(row: &Row<'_>) -> Result<Text, Fault> {
    let text = match find_head(row.bytes("bytes")?.as_slice(), row.number("limit")?) {
        HeadEnd::At(place) => format!(in row.alloc; "{place}")?,
        HeadEnd::NotYet => format!(in row.alloc; "not yet")?,
        HeadEnd::Over => format!(in row.alloc; "{TOO_LONG_NUMBER} {TOO_LONG_NAME}")?,
    };
    said(row.alloc, text.as_str())
}

/// A head as it is printed.
pub(crate) fn heads(row: &Row<'_>) -> Result<Text, Fault> {
    let block = row.bytes("head")?;
    match row.word("of")? {
        "request" => request(row.alloc, block.as_slice()),
        "response" => response(row.alloc, block.as_slice()),
        _ => Err(Fault::Form("request or response is wanted")),
    }
}

fn request(alloc: Global, block: &[u8]) -> Result<Text, Fault> {
    let head = RequestHead::read(alloc, block)?;
    let mut out = Text::new(alloc);
    print_head(
        head.first_line(alloc)?.as_bytes(),
        head.fields.as_slice(),
        &mut out,
    )?;
    Ok(out)
}

fn response(alloc: Global, block: &[u8]) -> Result<Text, Fault> {
    let head = ResponseHead::read(alloc, block)?;
    let mut out = Text::new(alloc);
    print_head(
        head.first_line(alloc)?.as_bytes(),
        head.fields.as_slice(),
        &mut out,
    )?;
    Ok(out)
}

/// The name and the value of a field line, and of which messages it is held back; or `no field line`.
pub(crate) fn fields(row: &Row<'_>) -> Result<Text, Fault> {
    let line = row.bytes("line")?;
    let Some(line) = read_field_line(line.as_slice()) else {
        return said(row.alloc, "no field line");
    };
    let held = match (
        is_held_back_of_request(line.name),
        is_held_back_of_response(line.name),
    ) {
        (true, true) => "held back",
        (true, false) => "held back of requests",
        (false, true) => "held back of responses",
        (false, false) => "passed on",
    };
    let mut out = Text::from_bytes(row.alloc, line.name)?;
    push_item(&mut out, line.value)?;
    push_item(&mut out, held.as_bytes())?;
    Ok(out)
}
