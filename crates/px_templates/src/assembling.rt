// A template's text without the lines that are left out, and with the texts that it includes.
ghost use Rattle.std.specs.Prelude.{◌≡◌, ◌++◌, IfOk, OnOk, option_map};
ghost use Rattle.px_templates.specs.Lines.{assembled, included_names, line_text, text_named, without_comments};

use crate::lines::{included_name, is_comment, split_line};
use px_base::{List, Mem, Text};
use std::alloc::Global;

/// The names of the texts that a template includes, in order.
pub fn included_names(alloc: Global, text: &[u8]) -> Result<List<Text>, Mem>
    ensures { IfOk result (λ names. names ≡ included_names text.now) }
{
    let mut names = Vec::new(alloc);
    let mut rest = text;
    'lines: while !rest.is_empty() {
        let (line, after) = split_line(rest);
        if let Some(name) = included_name(line) {
            names.push(Text::from_bytes(alloc, name)?)?;
        }
        rest = after;
    }
    Ok(List::from_vec(names))
}

/// The text of a template: lines that begin with `#` are left out, and one that includes another text stands for it.
#[tactic(auto, unfolding(crate::specs::Lines::assembled))]
pub(crate) fn assemble(alloc: Global, text: &[u8], includes: &[(Text, Text)]) -> Result<Text, Mem>
    ensures { IfOk result (λ out. out ≡ assembled includes.now text.now) }
{
    let mut out = Text::with_capacity(alloc, text.len())?;
    let mut rest = text;
    'lines: while !rest.is_empty() {
        let (line, after) = split_line(rest);
        push_line(line, includes, &mut out)?;
        rest = after;
    }
    Ok(out)
}

/// Adds what a line stands for.
fn push_line(line: &[u8], includes: &[(Text, Text)], out: &mut Text) -> Result<(), Mem>
    ensures { OnOk result (out.new ≡ out.old ++ line_text includes.now line.now) }
{
    if !is_comment(line) {
        return out.push_all(line);
    }
    let Some(name) = included_name(line) else {
        return Ok(());
    };
    match text_named(includes, name) {
        Some(text) => push_uncommented(text, out),
        None => Ok(()),
    }
}

/// Adds the lines that don't begin with `#`.
#[tactic(auto, unfolding(crate::specs::Lines::without_comments))]
fn push_uncommented(text: &[u8], out: &mut Text) -> Result<(), Mem>
    ensures { OnOk result (out.new ≡ out.old ++ without_comments text.now) }
{
    let mut rest = text;
    'lines: while !rest.is_empty() {
        let (line, after) = split_line(rest);
        if !is_comment(line) {
            out.push_all(line)?;
        }
        rest = after;
    }
    Ok(())
}

/// The first text of that name.
fn text_named<'i>(includes: &'i [(Text, Text)], name: &[u8]) -> Option<&'i [u8]>
    ensures { option_map (λ text. text.now) result ≡ text_named includes.now name.now }
{
    for include in includes {
        if include.0.as_bytes() == name {
            return Some(include.1.as_bytes());
        }
    }
    None
}
