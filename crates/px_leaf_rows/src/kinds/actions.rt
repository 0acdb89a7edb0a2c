//! Words of actions, and sets.
use crate::faults::Fault;
use crate::kinds::made::{apply_words, push_item, push_set, said, set_of};
use crate::leaves::Row;
use px_actions::{ActionSet, Change, Update};
use px_base::Text;
use std::alloc::Global;

/// Adds the word of an update: its sign, the kind's own name, and the parameter that is kept.
pub(crate) fn push_update(alloc: Global, out: &mut Text, update: &Update) -> Result<(), Fault> {
    let (sign, parameter) = match &update.change {
        Change::On => ('+', None),
        Change::Set(text) => ('+', Some(text)),
        Change::Add(text) => ('+', Some(text)),
        Change::Remove(text) => ('-', Some(text)),
        Change::Off => ('-', None),
        Change::Clear => ('-', None),
    };
    let name = update.kind.name();
    out.push_all(format!(in alloc; " {sign}{name}")?.as_bytes())?;
    if let Some(text) = parameter {
        out.push(b'{')?;
        out.push_all(text.as_bytes())?;
        out.push(b'}')?;
    }
    Ok(())
}

/// The number of a word's kind, and the word of the update that it is read as.
pub(crate) fn words(row: &Row<'_>) -> Result<Text, Fault> {
    let update = Update::read_bytes(row.alloc, row.bytes("word")?.as_slice())?;
    let place = update.kind.place();
    let mut out = said(row.alloc, format!(in row.alloc; "{place}")?.as_str())?;
    push_update(row.alloc, &mut out, &update)?;
    Ok(out)
}

/// The lines of a set to which words are applied in turn, and behind `then` those of its copy to which further ones are.
pub(crate) fn sets(row: &Row<'_>) -> Result<Text, Fault> {
    let set = set_of(row)?;
    let mut out = Text::new(row.alloc);
    push_set(&mut out, &set)?;
    let further = row.items("further")?;
    if !further.is_empty() {
        push_item(&mut out, b"then")?;
        push_changed(row.alloc, &mut out, &set, further.as_slice())?;
    }
    Ok(out)
}

/// Adds the lines of a set's copy to which words are applied.
fn push_changed(
    alloc: Global,
    out: &mut Text,
    set: &ActionSet,
    words: &[Text],
) -> Result<(), Fault> {
    let mut copy = set.copy()?;
    apply_words(alloc, &mut copy, words)?;
    push_set(out, &copy)
}
