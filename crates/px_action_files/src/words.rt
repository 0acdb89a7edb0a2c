// The words of sections and aliases.
ghost use Rattle.std.specs.Prelude.{◌≡◌, ◌≢◌, ◌++◌, ◌∷◌, [], map, option_map, Option, Ok, Err, IfErr, IfOk};
ghost use Rattle.px_actions.specs.Braces.{words};
ghost use Rattle.px_action_files.specs.Aliases.{updates_or, word_updates, words_updates};
ghost use Rattle.px_action_files.specs.Meanings.{seen_update, seen_alias};
ghost use Rattle.px_base.specs.Results.{result_map};

use crate::alias_tables::AliasTable;
use crate::aliases::Alias;
use px_actions::{ActionFault, Update, split_word};
use px_base::List;
use std::alloc::Global;

/// The updates of the words of a text, or the first refusal. More updates than `most` are want of memory.
#[tactic(auto, using(crate::proofs::ResultLemmas::then_made), unfolding(crate::specs::Aliases::words_updates))]
pub(crate) fn read_words(
    alloc: Global,
    known: &AliasTable,
    text: &[u8],
    most: usize,
) -> Result<List<Update>, ActionFault>
    ensures updates { IfOk result (λ us. words_updates (map seen_alias known.now) (words text.now) [] ≡ Ok (map seen_update us)) }
    ensures refused { IfErr result (λ f. f ≢ ActionFault.Mem → words_updates (map seen_alias known.now) (words text.now) [] ≡ Err f) }
{
    let mut updates = List::new(alloc);
    let mut rest = text;
    'words: while let Some((word, behind)) = split_word(rest) {
        add_word(alloc, known, word, most, &mut updates)?;
        rest = behind;
    }
    Ok(updates)
}

/// Adds the updates of a word: those of the alias of that name, without case, or its own.
fn add_word(
    alloc: Global,
    known: &AliasTable,
    word: &[u8],
    most: usize,
    updates: &mut List<Update>,
) -> Result<(), ActionFault>
    ensures added { IfOk result (λ _. result_map (λ us. map seen_update updates.old ++ us) (word_updates (map seen_alias known.now) word.now) ≡ Ok (map seen_update updates.new)) }
    ensures refused { IfErr result (λ f. f ≢ ActionFault.Mem → word_updates (map seen_alias known.now) word.now ≡ Err f) }
{
    match known.find(alloc, word) {
        Ok(found) => add_found(alloc, found, word, most, updates),
        Err(_) => Err(ActionFault::Mem),
    }
}

/// Adds the updates of an alias, or a word's own.
fn add_found(
    alloc: Global,
    found: Option<&Alias>,
    word: &[u8],
    most: usize,
    updates: &mut List<Update>,
) -> Result<(), ActionFault>
    ensures added { IfOk result (λ _. result_map (λ us. map seen_update updates.old ++ us) (updates_or (option_map (λ a. seen_alias a.now) found.entry) word.now) ≡ Ok (map seen_update updates.new)) }
    ensures refused { IfErr result (λ f. f ≢ ActionFault.Mem → updates_or (option_map (λ a. seen_alias a.now) found.entry) word.now ≡ Err f) }
{
    match found {
        Some(alias) => add_copies(alloc, alias.updates.as_slice(), most, updates),
        None => {
            let update = Update::read_bytes(alloc, word)?;
            push(updates, update, most)
        }
    }
}

/// Adds an update where there is room for one.
#[tactic(auto, using(std::proofs::lemmas::List::map_push))]
fn push(updates: &mut List<Update>, update: Update, most: usize) -> Result<(), ActionFault>
    ensures added { IfOk result (λ _. map seen_update updates.new ≡ map seen_update updates.old ++ seen_update update ∷ []) }
    ensures refused { IfErr result (λ f. f ≡ ActionFault.Mem) }
{
    if updates.len() >= most {
        return Err(ActionFault::Mem);
    }
    match updates.add(update) {
        Ok(()) => Ok(()),
        Err(_) => Err(ActionFault::Mem),
    }
}

fn add_copies(
    alloc: Global,
    copied: &[Update],
    most: usize,
    updates: &mut List<Update>,
) -> Result<(), ActionFault>
    ensures added { IfOk result (λ _. map seen_update updates.new ≡ map seen_update updates.old ++ map seen_update copied.now) }
    ensures refused { IfErr result (λ f. f ≡ ActionFault.Mem) }
{
    let mut rest = copied;
    'copies: while let Some((update, others)) = rest.split_first() {
        push(updates, update.copy(alloc)?, most)?;
        rest = others;
    }
    Ok(())
}
