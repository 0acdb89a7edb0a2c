//! By which rule a body is read, and bodies in pieces.
use crate::faults::Fault;
use crate::kinds::made::{head_of, rule_of, said};
use crate::leaves::Row;
use px_base::Text;
use px_framing::{BodyReader, BodyRule, request_body, response_body};
use px_head::{RequestHead, ResponseHead};
use std::alloc::Global;

/// The rule by which the body behind a head is read: of a request, or of the response to a method.
pub(crate) fn rules(row: &Row<'_>) -> Result<Text, Fault> {
    let head = head_of(row)?;
    let rule = match row.word("to")? {
        "request" => request_body(
            RequestHead::read(row.alloc, head.as_bytes())?
                .fields
                .as_slice(),
        )?,
        method => response_body(
            &ResponseHead::read(row.alloc, head.as_bytes())?,
            method.as_bytes(),
        )?,
    };
    match rule {
        BodyRule::Absent => said(row.alloc, "none"),
        BodyRule::Length(len) => said(row.alloc, format!(in row.alloc; "{len}")?.as_str()),
        BodyRule::Chunked => said(row.alloc, "chunked"),
        BodyRule::ToClose => said(row.alloc, "to the close"),
    }
}

/// A way to cut bytes: the length of the first piece, and that of each piece behind it but the last.
#[derive(Clone, Copy)]
pub struct Cut {
    first: usize,
    size: usize,
}

impl Cut {
    /// The ways to cut so many bytes: byte by byte, not at all, and into two at each place. Where they are many, into pieces of a
    /// thousand, not at all, and into two at some places.
    pub(crate) fn all(alloc: Global, len: usize) -> Result<Vec<Cut>, Fault> {
        let (size, step) = if len < 512 {
            (1, 1)
        } else {
            (1_000, 1 + len / 4)
        };
        let mut cuts = Vec::new(alloc);
        cuts.push(Cut { first: size, size })?;
        for first in (0..=len).step_by(step) {
            cuts.push(Cut { first, size: len })?;
        }
        Ok(cuts)
    }

    /// The pieces of bytes.
    pub(crate) fn pieces(self, alloc: Global, bytes: &[u8]) -> Result<Vec<&[u8]>, Fault> {
        let first = self.first.min(bytes.len());
        let mut pieces = Vec::new(alloc);
        pieces.push(&bytes[..first])?;
        for piece in bytes[first..].chunks(self.size.max(1)) {
            pieces.push(piece)?;
        }
        Ok(pieces)
    }

    /// What a cut gives that gives something else.
    pub(crate) fn said(self, alloc: Global, got: &Text) -> Result<Text, Fault> {
        let Cut { first, size } = self;
        let mut out = said(
            alloc,
            format!(in alloc; "cut at {first} and then by {size}: ")?.as_str(),
        )?;
        out.push_all(got.as_bytes())?;
        Ok(out)
    }
}

/// How the body stands whose bytes come in pieces, how many bytes are its own, how many of them were given as they came, and
/// its data.
fn read(alloc: Global, rule: BodyRule, pieces: &[&[u8]], ends: bool) -> Result<Text, Fault> {
    let mut reader = BodyReader::new(alloc, rule);
    let (mut raw, mut plain) = (Text::new(alloc), Text::new(alloc));
    let mut used = 0usize;
    for piece in pieces {
        let fed = reader.feed(piece, &mut raw, &mut plain)?;
        used = used.saturating_add(fed.used);
    }
    let state = if ends { reader.end() } else { reader.state() };
    let len = raw.len();
    let mut out = said(
        alloc,
        format!(in alloc; "{state:?}, used {used}, raw {len}: ")?.as_str(),
    )?;
    out.push_all(plain.as_bytes())?;
    Ok(out)
}

/// How a body is read, if it is read the same however it is cut.
pub(crate) fn bodies(row: &Row<'_>) -> Result<Text, Fault> {
    let rule = rule_of(row)?;
    let bytes = row.bytes("bytes")?;
    let ends = row.is("ends")?;
    let whole = read(row.alloc, rule, &[bytes.as_slice()], ends)?;
    for cut in Cut::all(row.alloc, bytes.len())?.iter() {
        let got = read_cut(row.alloc, rule, *cut, bytes.as_slice(), ends)?;
        if got.as_bytes() != whole.as_bytes() {
            return cut.said(row.alloc, &got);
        }
    }
    Ok(whole)
}

fn read_cut(
    alloc: Global,
    rule: BodyRule,
    cut: Cut,
    bytes: &[u8],
    ends: bool,
) -> Result<Text, Fault> {
    let pieces = cut.pieces(alloc, bytes)?;
    read(alloc, rule, pieces.as_slice(), ends)
}
