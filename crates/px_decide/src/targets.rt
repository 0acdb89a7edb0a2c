// The targets of redirects: URLs that stand in a path, and how a target is written.
ghost use Rattle.std.specs.Prelude.{◌≡◌, IfOk, option_map};
ghost use Rattle.percent_encoding.specs.Percent.{percent_decode};
ghost use Rattle.px_decide.specs.Targets.{begins_url, last_url, target_text};

use percent_encoding::{AsciiSet, CONTROLS, ascii_set, percent_decode, percent_encode};
use px_base::{Mem, Text};
use std::alloc::Global;

/// The ASCII bytes that a target doesn't hold as they are: the controls and the space.
const TARGET: AsciiSet = ascii_set!(CONTROLS.add(b' '));

const HTTP: &[u8] = b"http://";

const HTTPS: &[u8] = b"https://";

/// The bytes with each escape `%` and two hexadecimal digits read.
pub fn decoded(alloc: Global, bytes: &[u8]) -> Result<Text, Mem>
    ensures { IfOk result (λ text. text ≡ percent_decode bytes.now) }
{
    let mut text = Vec::new(alloc);
    percent_decode(bytes).append_to(&mut text)?;
    Ok(Text::from_vec(text))
}

/// A target as it is written: each byte below 33, and each from 127 on, as `%` and two hexadecimal digits in upper case.
pub(crate) fn target_text(alloc: Global, target: &[u8]) -> Result<Text, Mem>
    ensures { IfOk result (λ text. text ≡ target_text target.now) }
{
    let mut text = String::new(alloc);
    percent_encode(target, TARGET).append_to(&mut text)?;
    Ok(Text::from_vec(text.into_bytes()))
}

/// What begins at the last place at which `http://` or `https://` stands with at least one byte behind it.
pub(crate) fn last_url(text: &[u8]) -> Option<&[u8]>
    ensures { option_map (λ url. url.now) result ≡ last_url text.now }
{
    let mut at = text.len();
    'places: while at > 0 {
        at -= 1;
        if begins_url(&text[at..]) {
            return Some(&text[at..]);
        }
    }
    None
}

#[tactic(auto, unfolding(crate::specs::Targets::begins_url))]
fn begins_url(text: &[u8]) -> bool
    ensures { result ≡ begins_url text.now }
{
    (text.starts_with(HTTP) && text.len() > HTTP.len())
        || (text.starts_with(HTTPS) && text.len() > HTTPS.len())
}
