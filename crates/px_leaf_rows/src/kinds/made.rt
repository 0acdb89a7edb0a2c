//! What the kinds share: texts that are put together, and objects of a row's values.
use crate::faults::Fault;
use crate::leaves::{ITEMS, Row};
use px_action_files::ActionFile;
use px_actions::{ActionSet, Update};
use px_base::{List, Text};
use px_fields::Field;
use px_filter_files::{FilterFile, Filters};
use px_framing::BodyRule;
use px_merge::{Sections, Side};
use px_patterns::Url;
use px_subst::Vars;
use px_text::{Line, logical_lines};
use std::alloc::Global;

/// Adds an item behind those before it.
pub(crate) fn push_item(out: &mut Text, item: &[u8]) -> Result<(), Fault> {
    if !out.is_empty() {
        out.push_all(ITEMS.as_bytes())?;
    }
    Ok(out.push_all(item)?)
}

/// Adds the line of each field as an item.
pub(crate) fn push_fields(alloc: Global, out: &mut Text, fields: &[Field]) -> Result<(), Fault> {
    for field in fields {
        push_item(out, field.line(alloc)?.as_bytes())?;
    }
    Ok(())
}

/// Adds each line of a text as an item.
pub(crate) fn push_lines(out: &mut Text, lines: &[u8]) -> Result<(), Fault> {
    for line in lines.split(|byte| *byte == b'\n') {
        if !line.is_empty() {
            push_item(out, line)?;
        }
    }
    Ok(())
}

/// The text of a string.
pub(crate) fn said(alloc: Global, text: &str) -> Result<Text, Fault> {
    Ok(Text::from_bytes(alloc, text.as_bytes())?)
}

/// `yes` or `no`.
pub(crate) fn yes_or_no(alloc: Global, yes: bool) -> Result<Text, Fault> {
    said(alloc, if yes { "yes" } else { "no" })
}

/// Bytes that are text.
pub(crate) fn as_str(bytes: &[u8]) -> Result<&str, Fault> {
    str::from_utf8(bytes).map_err(|_| Fault::Form("UTF-8 is wanted"))
}

/// The logical lines of a file's bytes.
pub(crate) fn lines_of(alloc: Global, file: &[u8]) -> Result<List<Line>, Fault> {
    if file.len() > 4_294_967_294 {
        return Err(Fault::Mem);
    }
    Ok(logical_lines(alloc, file)?)
}

/// The URL of a text, which has the form of a URL or of the target of a tunnel.
pub(crate) fn url_of(row: &Row<'_>, tunnel: bool) -> Result<Url, Fault> {
    let text = row.bytes("url")?;
    let read = if tunnel {
        Url::authority(row.alloc, text.as_slice())
    } else {
        Url::read(row.alloc, text.as_slice())
    };
    Ok(read?)
}

/// Applies the updates of words in turn.
pub(crate) fn apply_words(alloc: Global, set: &mut ActionSet, words: &[Text]) -> Result<(), Fault> {
    for word in words {
        let update = Update::read_bytes(alloc, word.as_bytes())?;
        set.apply(&update)?;
    }
    Ok(())
}

/// The set of the words of a row.
pub(crate) fn set_of(row: &Row<'_>) -> Result<ActionSet, Fault> {
    let mut set = ActionSet::empty(row.alloc);
    apply_words(row.alloc, &mut set, row.items("words")?.as_slice())?;
    Ok(set)
}

/// Adds the lines of a set, each behind what parts items.
pub(crate) fn push_set(out: &mut Text, set: &ActionSet) -> Result<(), Fault> {
    let lines = set.print()?;
    push_lines(out, lines.as_bytes())
}

/// The actions file of some bytes.
pub(crate) fn actions_of(alloc: Global, file: &[u8]) -> Result<ActionFile, Fault> {
    let lines = lines_of(alloc, file)?;
    Ok(ActionFile::read(alloc, lines.as_slice())?)
}

/// The sections of the actions files of a row.
pub(crate) fn sections_of(row: &Row<'_>) -> Result<Sections, Fault> {
    let mut files = List::new(row.alloc);
    for name in ["file", "second"] {
        let read = actions_of(row.alloc, row.file(name)?.as_bytes())?;
        files.add((Text::new(row.alloc), read))?;
    }
    Ok(Sections::new(row.alloc, List::new(row.alloc), files)?)
}

/// The side that a row names.
pub(crate) fn side_of(row: &Row<'_>) -> Result<Side, Fault> {
    match row.word("side")? {
        "request" => Ok(Side::Request),
        "response" => Ok(Side::Response),
        _ => Err(Fault::Form("request or response is wanted")),
    }
}

/// The filter file of a row.
pub(crate) fn filter_file_of(row: &Row<'_>) -> Result<FilterFile, Fault> {
    let lines = lines_of(row.alloc, row.file("filters")?.as_bytes())?;
    Ok(FilterFile::read(row.alloc, lines.as_slice())?)
}

/// The filters of the filter file of a row.
pub(crate) fn filters_of(row: &Row<'_>) -> Result<Filters, Fault> {
    let file = filter_file_of(row)?;
    if file.filters.len() > 1_000 {
        return Err(Fault::Form("a thousand filters are the most"));
    }
    let mut files = List::new(row.alloc);
    files.add(file)?;
    Ok(Filters::new(row.alloc, files)?)
}

/// The bytes of a head by a value that has its lines between ` | `.
pub(crate) fn head_of(row: &Row<'_>) -> Result<Text, Fault> {
    let mut head = Text::new(row.alloc);
    for line in row.items("head")?.as_slice() {
        head.push_all(line.as_bytes())?;
        head.push_all(b"\r\n")?;
    }
    head.push_all(b"\r\n")?;
    Ok(head)
}

/// The rule of bodies that a row names.
pub(crate) fn rule_of(row: &Row<'_>) -> Result<BodyRule, Fault> {
    match row.word("rule")? {
        "none" => Ok(BodyRule::Absent),
        "chunked" => Ok(BodyRule::Chunked),
        "to the close" => Ok(BodyRule::ToClose),
        _ => Ok(BodyRule::Length(row.number("rule")?)),
    }
}

/// The values of `$host`, `$origin`, `$path` and `$url`.
pub(crate) fn vars_of(alloc: Global, host: &[u8]) -> Result<Vars, Fault> {
    Ok(Vars {
        host: Text::from_bytes(alloc, host)?,
        origin: Text::from_bytes(alloc, b"127.0.0.1")?,
        path: Text::from_bytes(alloc, b"/p")?,
        url: Text::from_bytes(alloc, b"http://a.test/p")?,
    })
}
