// Aliases.
ghost use Rattle.std.specs.Prelude.{◌≡◌, [], is_some, map, option_map, Ok, IfErr, IfOk};
ghost use Rattle.std.specs.List.{list_any};
ghost use Rattle.px_action_files.specs.Faults.{IsReported};
ghost use Rattle.px_action_files.specs.Aliases.{is_brace_or_blank, is_alias_name, name_and_words, alias_named, alias_by, alias_of, aliases_of};
ghost use Rattle.px_action_files.specs.Meanings.{seen_alias};

use crate::alias_tables::AliasTable;
use crate::faults::{ALIAS_TWICE, BAD_BLOCK, FileFault, OPEN_BRACE};
use crate::words::read_words;
use px_actions::{Update, balances};
use px_base::{List, Mem, Text, is_blank, place, trim};
use px_text::Line;
use std::alloc::Global;

/// A name that stands for words.
#[derive(Drop)]
pub struct Alias {
    pub name: Text,
    /// The updates of its words.
    pub updates: List<Update>,
}

fn holds_brace_or_blank(name: &[u8]) -> bool
    ensures { result ≡ list_any is_brace_or_blank name.now }
{
    name.iter()
        .any(|byte| is_blank(*byte) || *byte == b'{' || *byte == b'}')
}

#[tactic(auto, unfolding(crate::specs::Aliases::is_alias_name))]
fn is_alias_name(name: &[u8]) -> bool
    ensures { result ≡ is_alias_name name.now }
{
    !name.is_empty() && !holds_brace_or_blank(name)
}

/// The text before the first `=`, without the white space at its ends, and the text behind that `=`.
#[tactic(auto, unfolding(crate::specs::Aliases::name_and_words))]
fn name_and_words(text: &[u8]) -> Option<(&[u8], &[u8])>
    ensures { option_map (λ parts. (parts.0.now, parts.1.now)) result ≡ name_and_words text.now }
{
    match place(text, b'=') {
        Some(at) => Some((trim(&text[..at]), &text[at + 1..])),
        None => None,
    }
}

/// The alias of a line: a name, `=`, and words, which see the aliases known before and stand for at most so many updates.
#[tactic(auto, using(crate::proofs::ResultLemmas::reported_same), unfolding(crate::specs::Aliases::alias_of))]
fn read_alias(
    alloc: Global,
    known: &AliasTable,
    line: &Line,
    most: usize,
) -> Result<Alias, FileFault>
    ensures alias { IfOk result (λ a. alias_of (map seen_alias known.now) line.now ≡ Ok (seen_alias a)) }
    ensures refused { IfErr result (IsReported (alias_of (map seen_alias known.now) line.now)) }
{
    let text = line.text.as_bytes();
    if !balances(text) {
        return Err(FileFault::At {
            line: line.number,
            number: OPEN_BRACE,
        });
    }
    match name_and_words(text) {
        Some((name, words)) => alias_by(alloc, known, line.number, name, words, most),
        None => Err(FileFault::At {
            line: line.number,
            number: BAD_BLOCK,
        }),
    }
}

/// Whether an alias has that name.
fn is_known(alloc: Global, known: &AliasTable, name: &[u8]) -> Result<bool, Mem>
    ensures { IfOk result (λ yes. yes ≡ is_some (alias_named (map seen_alias known.now) name.now)) }
{
    match known.find(alloc, name) {
        Ok(Some(_)) => Ok(true),
        Ok(None) => Ok(false),
        Err(fault) => Err(fault),
    }
}

#[tactic(auto, using(crate::proofs::ResultLemmas::word_reported, crate::proofs::ResultLemmas::reported_map))]
fn alias_by(
    alloc: Global,
    known: &AliasTable,
    line: u32,
    name: &[u8],
    text: &[u8],
    most: usize,
) -> Result<Alias, FileFault>
    ensures alias { IfOk result (λ a. alias_by (map seen_alias known.now) line name.now text.now ≡ Ok (seen_alias a)) }
    ensures refused { IfErr result (IsReported (alias_by (map seen_alias known.now) line name.now text.now)) }
{
    if !is_alias_name(name) {
        return Err(FileFault::At {
            line,
            number: BAD_BLOCK,
        });
    }
    if is_known(alloc, known, name)? {
        return Err(FileFault::At {
            line,
            number: ALIAS_TWICE,
        });
    }
    match read_words(alloc, known, text, most) {
        Ok(updates) => Ok(Alias {
            name: Text::from_bytes(alloc, name)?,
            updates,
        }),
        Err(fault) => Err(FileFault::of_word(line, fault)),
    }
}

/// The aliases of an alias block, or the first refusal. Together they stand for at most so many updates.
#[tactic(auto, using(crate::proofs::ResultLemmas::reported_then, crate::proofs::ResultLemmas::reported_same, std::proofs::lemmas::List::map_push), unfolding(crate::specs::Aliases::aliases_of))]
pub(crate) fn read_aliases(
    alloc: Global,
    lines: &[Line],
    most: usize,
) -> Result<AliasTable, FileFault>
    ensures aliases { IfOk result (λ known. aliases_of lines.now [] ≡ Ok (map seen_alias known)) }
    ensures refused { IfErr result (IsReported (aliases_of lines.now [])) }
{
    let mut known = AliasTable::new(alloc);
    let mut room = most;
    let mut rest = lines;
    'lines: while let Some((line, others)) = rest.split_first() {
        let alias = read_alias(alloc, &known, line, room)?;
        room = room.saturating_sub(alias.updates.len());
        known = known.with(alloc, alias)?;
        rest = others;
    }
    Ok(known)
}
