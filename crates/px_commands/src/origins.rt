// The file ORIGIN: the answers of the dials to come.
ghost use Rattle.std.specs.Prelude.{◌≡◌, ◌≢◌, ◌<◌, ◌≤◌, ◌+◌, ◌++◌, IfOk, IfSome, IsNone, MatchOption, Err, List, ℕ, length, option_map};
ghost use Rattle.std.specs.List.{position};
ghost use Rattle.px_base.specs.declared.dials.Answer.{Answer};
ghost use Rattle.px_commands.specs.Origins.{BeginsWithWord, IsOrigin, plain_answer};
ghost use Rattle.px_commands.specs.Entries.{EntryIs, first_counted_entry, counted_front, is_line_feed};

use px_base::{Answer, List, Mem, Text, read_decimal};
use std::alloc::{AllocFailed, Global};

/// Why a text isn't read as ORIGIN.
#[derive(Clone, Copy, Debug, PartialEq, Eq)]
pub enum OriginFault {
    /// It isn't a list of entries.
    BadForm,
    Mem,
}

impl From<Mem> for OriginFault {
    ghost use Rattle.px_commands.specs.declared.origins.OriginFault.TheVariants as fault;

    ghost from_gives = { λ _ e. e ≡ fault.Mem };

    fn from(_: Mem) -> Self {
        OriginFault::Mem
    }
}

impl<T: Drop> From<AllocFailed<T>> for OriginFault {
    ghost use Rattle.px_commands.specs.declared.origins.OriginFault.TheVariants as fault;

    ghost from_gives = { λ _ e. e ≡ fault.Mem };

    fn from(_: AllocFailed<T>) -> Self {
        OriginFault::Mem
    }
}

/// Reads entries, each a line of one to eight decimal digits, ended by LF, and that many bytes, which are the answer of one
/// dial; or the line `no-name` or `not-reached` for a dial that is refused, of which the last may lack its LF.
pub fn read_origin(alloc: Global, text: &[u8]) -> Result<List<Answer>, OriginFault>
    ensures origin { IfOk result (IsOrigin text.now) }
    ensures bad_form { result ≡ Err OriginFault.BadForm → (answers : List Answer) → ¬ IsOrigin text.now answers }
{
    let mut answers = Vec::new(alloc);
    let mut rest = text;
    'entries: while !rest.is_empty() {
        match read_entry(alloc, rest)? {
            Some((answer, behind)) => {
                answers.push(answer)?;
                rest = behind;
            }
            None => return Err(OriginFault::BadForm),
        }
    }
    Ok(List::from_vec(answers))
}

/// The answer of the first entry, and what comes behind it.
fn read_entry(alloc: Global, text: &[u8]) -> Result<Option<(Answer, &[u8])>, Mem>
    ensures entry { IfOk result (λ read. EntryIs text.now (option_map (λ e. (e.0, e.1.now)) read)) }
    ensures shorter { IfOk result (λ read. IfSome read (λ e. length e.1.now < length text.now)) }
{
    if let Some(rest) = read_word(text, b"no-name") {
        return Ok(Some((Answer::NoName, rest)));
    }
    if let Some(rest) = read_word(text, b"not-reached") {
        return Ok(Some((Answer::NotReached, rest)));
    }
    match read_bytes(text) {
        Some((bytes, rest)) => Ok(Some((answer(alloc, bytes)?, rest))),
        None => Ok(None),
    }
}

/// What comes behind a word, where it stands at the front.
fn behind_word<'t>(text: &'t [u8], word: &[u8]) -> Option<&'t [u8]>
    ensures value { MatchOption result ((rest : List ℕ) → text.now ≢ word.now ++ rest) (λ rest. text.now ≡ word.now ++ rest.now) }
    ensures shorter { IfSome result (λ rest. length rest.now + length word.now ≡ length text.now) }
{
    text.strip_prefix(word)
}

/// What comes behind a word line. Where nothing does, the line may lack its LF.
#[tactic(auto, using(crate::proofs::OriginLemmas::word_rules))]
fn read_word<'t>(text: &'t [u8], word: &[u8]) -> Option<&'t [u8]>
    ensures some { IfSome result (λ rest. BeginsWithWord word.now text.now rest.now) }
    ensures none { IsNone result → (rest : List ℕ) → ¬ BeginsWithWord word.now text.now rest }
    ensures shorter { 0 < length word.now → IfSome result (λ rest. length rest.now < length text.now) }
{
    let behind = behind_word(text, word)?;
    match behind.split_first() {
        None => Some(behind),
        Some((first, rest)) => { if *first == b'\n' { Some(rest) } else { None } }
    }
}

/// The bytes of the first entry, where it is one of bytes, and what comes behind it.
#[tactic(auto, unfolding(crate::specs::Entries::first_counted_entry))]
fn read_bytes(text: &[u8]) -> Option<(&[u8], &[u8])>
    ensures entry { option_map (λ e. (e.0.now, e.1.now)) result ≡ first_counted_entry text.now }
    ensures shorter { IfSome result (λ e. length e.1.now < length text.now) }
{
    match line_feed(text) {
        Some(at) => {
            if at > 8 {
                return None;
            }
            take_counted(&text[at + 1..], read_decimal(&text[..at], 99_999_999))
        }
        None => None,
    }
}

/// So many of the bytes, and those behind them, where there are so many.
fn take_counted(behind: &[u8], count: Option<u64>) -> Option<(&[u8], &[u8])>
    ensures entry { option_map (λ e. (e.0.now, e.1.now)) result ≡ counted_front behind.now count }
    ensures within { IfSome result (λ e. length e.1.now ≤ length behind.now) }
{
    match count {
        Some(count) => {
            if count <= behind.len() as u64 {
                Some(behind.split_at(count as usize))
            } else {
                None
            }
        }
        None => None,
    }
}

/// The place of the first LF.
fn line_feed(text: &[u8]) -> Option<usize>
    ensures value { result ≡ position is_line_feed text.now }
    ensures within { IfSome result (λ at. at < length text.now) }
{
    text.iter().position(|byte| *byte == b'\n')
}

/// An answer that is read to its end without faults.
fn answer(alloc: Global, bytes: &[u8]) -> Result<Answer, Mem>
    ensures { IfOk result (λ a. a ≡ plain_answer bytes.now) }
{
    Ok(Answer::Link {
        bytes: Text::from_bytes(alloc, bytes)?,
        cuts: List::new(alloc),
        read_fails: List::new(alloc),
        write_fails: List::new(alloc),
    })
}
