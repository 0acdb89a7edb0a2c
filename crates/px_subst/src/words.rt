// The words that a job with the flag `D` replaces.
ghost use Rattle.std.specs.Prelude.{◌≡◌, ◌++◌, ◌≤◌, length, IfOk, IfSome, IsTrue};
ghost use Rattle.px_subst.specs.Words.{word_at, text_of, word_value, filled};

use px_base::{Mem, Text};
use std::alloc::{AllocError, Global};

/// What the words of a job with the flag `D` stand for.
#[derive(Drop)]
pub struct Vars {
    /// `$host`
    pub host: Text,
    /// `$origin`
    pub origin: Text,
    /// `$path`
    pub path: Text,
    /// `$url`
    pub url: Text,
}

impl Vars {
    /// A copy of the values.
    pub(crate) fn copy(&self, alloc: Global) -> Result<Vars, Mem>
        ensures { IfOk result (λ vars. vars ≡ self.now) }
    {
        Ok(Vars {
            host: Text::from_bytes(alloc, self.host.as_bytes())?,
            origin: Text::from_bytes(alloc, self.origin.as_bytes())?,
            path: Text::from_bytes(alloc, self.path.as_bytes())?,
            url: Text::from_bytes(alloc, self.url.as_bytes())?,
        })
    }

    /// Whether each value is the same.
    pub(crate) fn is_same(&self, vars: &Vars) -> bool
        ensures { IsTrue result → self.now ≡ vars.now }
    {
        self.host.as_bytes() == vars.host.as_bytes()
            && self.origin.as_bytes() == vars.origin.as_bytes()
            && self.path.as_bytes() == vars.path.as_bytes()
            && self.url.as_bytes() == vars.url.as_bytes()
    }
}

/// The words, in the order in which they are looked for.
const WORDS: [Word; 4] = [Word::Host, Word::Origin, Word::Path, Word::Url];

#[derive(Clone, Copy, Debug, PartialEq, Eq)]
enum Word {
    Host,
    Origin,
    Path,
    Url,
}

impl Word {
    fn text(self) -> &'static [u8]
        ensures { result.now ≡ text_of self }
    {
        match self {
            Word::Host => b"$host",
            Word::Origin => b"$origin",
            Word::Path => b"$path",
            Word::Url => b"$url",
        }
    }

    fn value(self, vars: &Vars) -> &[u8]
        ensures { result.now ≡ word_value vars.now self }
    {
        match self {
            Word::Host => vars.host.as_bytes(),
            Word::Origin => vars.origin.as_bytes(),
            Word::Path => vars.path.as_bytes(),
            Word::Url => vars.url.as_bytes(),
        }
    }
}

/// The word with which the text begins.
fn word_at(text: &[u8]) -> Option<Word>
    ensures word { result ≡ word_at text.now }
    ensures within { IfSome result (λ word. length (text_of word) ≤ length text.now) }
{
    WORDS
        .iter()
        .copied()
        .find(|word| text.starts_with(word.text()))
}

/// The text with a value in the place of each word. A value isn't searched.
pub(crate) fn filled(alloc: Global, vars: &Vars, text: &[u8]) -> Result<Vec<u8>, AllocError>
    ensures { IfOk result (λ out. out.items ≡ filled vars.now text.now) }
{
    let mut out = Vec::with_capacity(alloc, text.len())?;
    let mut at = 0;
    'words: while at < text.len() {
        match word_at(&text[at..]) {
            Some(word) => {
                out.extend_from_slice(word.value(vars))?;
                at += word.text().len();
            }
            None => {
                out.push(text[at])?;
                at += 1;
            }
        }
    }
    Ok(out)
}
