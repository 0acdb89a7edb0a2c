// The lines of a template, and what a line includes.
ghost use Rattle.std.specs.Prelude.{◌≡◌, ◌∷◌, ◌<◌, length, option_map};
ghost use Rattle.px_templates.specs.Lines.{included_name, is_comment, text_lines, name_behind_include, without_end_byte};

use memchr::memchr;
use px_base::{is_blank, trim};

const LINE_FEED: u8 = b'\n';

const CARRIAGE_RETURN: u8 = b'\r';

const COMMENT: &[u8] = b"#";

const INCLUDE: &[u8] = b"#include";

/// The first line with its LF, and what follows it.
pub fn split_line(text: &[u8]) -> (&[u8], &[u8])
    requires { 0 < length text.now }
    ensures split { text_lines text.now ≡ result.0.now ∷ text_lines result.1.now }
    ensures shorter { length result.1.now < length text.now }
{
    match memchr(LINE_FEED, text) {
        None => (text, &text[text.len()..]),
        Some(at) => text.split_at(at + 1),
    }
}

/// Whether a line is left out.
pub fn is_comment(line: &[u8]) -> bool
    ensures { result ≡ is_comment line.now }
{
    line.starts_with(COMMENT)
}

/// The name of the text that a line includes, if it includes one.
#[tactic(auto, unfolding(crate::specs::Lines::included_name))]
pub fn included_name(line: &[u8]) -> Option<&[u8]>
    ensures { option_map (λ name. name.now) result ≡ included_name line.now }
{
    if !line.starts_with(INCLUDE) || line.len() <= INCLUDE.len() || !is_blank(line[INCLUDE.len()]) {
        return None;
    }
    let name = name_behind(&line[INCLUDE.len()..]);
    if name.is_empty() { None } else { Some(name) }
}

fn name_behind(rest: &[u8]) -> &[u8]
    ensures { result.now ≡ name_behind_include rest.now }
{
    trim(without_last(CARRIAGE_RETURN, trim(without_last(LINE_FEED, rest))))
}

/// The bytes without that byte at their end.
fn without_last(byte: u8, bytes: &[u8]) -> &[u8]
    ensures { result.now ≡ without_end_byte byte bytes.now }
{
    if bytes.ends_with(&[byte]) {
        &bytes[..bytes.len() - 1]
    } else {
        bytes
    }
}
