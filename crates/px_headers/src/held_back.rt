// The fields that a proxy doesn't pass on.
ghost use Rattle.std.specs.Prelude.{◌≡◌, ◌++◌, IfOk, OnOk};
ghost use Rattle.std.specs.Str.{str_eq_ignore_ascii_case};
ghost use Rattle.px_fields.specs.Names.{is_among_names};
ghost use Rattle.px_headers.specs.HeldBack.{is_fixed, is_held, names_more, passed_on, without_held, words_in, IsHeldBackOf};

use px_base::{List, Mem, Text, cut, same_without_case, trim};
use px_fields::{Field, has_name, is_held_back_of_request, is_held_back_of_response};
use std::alloc::Global;

/// A field that is held back of every message, and that the Connection fields of most requests name.
const KEEP_ALIVE: &[u8] = b"Keep-Alive";

/// What a head belongs to.
#[derive(Clone, Copy, Debug, PartialEq, Eq)]
pub(crate) enum MessageKind {
    Request,
    Response,
}

/// The names that are held back of a message: the fixed ones, and those that its Connection fields name.
#[derive(Drop)]
pub(crate) struct HeldBack {
    pub(crate) message: MessageKind,
    /// The words of its Connection fields but Keep-Alive, which is a fixed name.
    words: List<Text>,
}

fn is_fixed(message: MessageKind, name: &[u8]) -> bool
    ensures { result ≡ is_fixed message name.now }
{
    match message {
        MessageKind::Request => is_held_back_of_request(name),
        MessageKind::Response => is_held_back_of_response(name),
    }
}

/// Whether a word may name a field that isn't held back without it: Keep-Alive, the word that clients send, is held back anyway.
fn names_more(word: &[u8]) -> bool
    ensures { result ≡ names_more word.now }
{
    !same_without_case(word, KEEP_ALIVE)
}

/// Adds the words of a list between commas that may name more fields, without the white space around them.
fn add_words(alloc: Global, value: &[u8], words: &mut List<Text>) -> Result<(), Mem>
    ensures { OnOk result (words.new ≡ words.old ++ words_in value.now) }
{
    let mut rest = Some(value);
    'words: while let Some(bytes) = rest {
        let (first, more) = cut(bytes, b',');
        let word = trim(first);
        if names_more(word) {
            words.add(Text::from_bytes(alloc, word)?)?;
        }
        rest = more;
    }
    Ok(())
}

impl HeldBack {
    /// The names that are held back of a message with these fields.
    pub(crate) fn of(alloc: Global, message: MessageKind, fields: &[Field]) -> Result<HeldBack, Mem>
        ensures { IfOk result (IsHeldBackOf message fields.now) }
    {
        let mut words = List::new(alloc);
        for field in fields {
            if has_name(field, b"Connection") {
                add_words(alloc, field.value.as_bytes(), &mut words)?;
            }
        }
        Ok(HeldBack { message, words })
    }
}

/// Whether the word is that name, without case. The lengths come first, so that most names cost no call.
fn is_name(word: &Text, name: &[u8]) -> bool
    ensures { result ≡ str_eq_ignore_ascii_case word.now name.now }
{
    word.len() == name.len() && same_without_case(word.as_bytes(), name)
}

/// Whether the name is one of the words, without case.
fn is_among(words: &[Text], name: &[u8]) -> bool
    ensures { result ≡ is_among_names words.now name.now }
{
    words.iter().any(|word| is_name(word, name))
}

/// Whether a name is a fixed one of a message or one of the words, without case.
#[inline(always)]
fn is_held(message: MessageKind, words: &[Text], name: &[u8]) -> bool
    ensures { result ≡ is_held (record { message = message; words = words.now }) name.now }
{
    is_fixed(message, name) || is_among(words, name)
}

/// The fields of a message whose names it doesn't hold back. The fields behind one that goes move up at once: mostly two go, and
/// a head has no more than 256.
pub(crate) fn pass_on(fields: List<Field>, held: &HeldBack) -> List<Field>
    ensures is { result ≡ without_held held.now fields }
    ensures passed { (message : _) → IsHeldBackOf message fields held.now → result ≡ passed_on message fields }
{
    let message = held.message;
    let words = held.words.as_slice();
    let mut kept = fields.into_vec();
    let mut at = 0;
    'fields: while at < kept.len() {
        if is_held(message, words, kept[at].name.as_bytes()) {
            drop(kept.remove(at));
        } else {
            at += 1;
        }
    }
    List::from_vec(kept)
}
