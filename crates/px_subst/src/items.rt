// The items of a substitute.
ghost use Rattle.std.specs.Prelude.{◌≡◌, ◌++◌, ◌∷◌, [], ◌<◌, ◌≤◌, ◌-◌, map, drop, length, IfOk, OnOk};
ghost use Rattle.px_subst.specs.Substitutes.{pair_item, substitute_items, items_by_flag, is_group_digit, backslashed_byte};
ghost use Rattle.px_subst.specs.Replacers.{items_in_all};

use std::alloc::{AllocError, Global};
use std::mem;

/// What stands in a substitute.
#[derive(Clone, Copy, Debug, PartialEq, Eq)]
pub enum SubstituteItem {
    /// A byte by itself.
    Byte(u8),
    /// What the group matched. Group 0 is the match.
    Group(u8),
}

/// A run of bytes of a substitute, or a group.
#[derive(Drop)]
pub(crate) enum Part {
    Text(Vec<u8>),
    Group(u8),
}

/// The byte that a backslash before this one stands for.
fn escaped_byte(byte: u8) -> u8
    ensures { result ≡ backslashed_byte byte }
{
    match byte {
        b'n' => b'\n',
        b'r' => b'\r',
        b't' => b'\t',
        b'f' => 12,
        _ => byte,
    }
}

fn is_group_digit(byte: u8) -> bool
    ensures { result ≡ is_group_digit byte }
{
    byte >= b'1' && byte <= b'9'
}

/// The item that two bytes stand for together, if they do.
fn pair_item(first: u8, second: u8) -> Option<SubstituteItem>
    ensures { result ≡ pair_item first second }
{
    if first == b'$' {
        if is_group_digit(second) {
            Some(SubstituteItem::Group(second - b'0'))
        } else if second == b'&' {
            Some(SubstituteItem::Group(0))
        } else {
            None
        }
    } else if first == b'\\' {
        if is_group_digit(second) {
            Some(SubstituteItem::Group(second - b'0'))
        } else {
            Some(SubstituteItem::Byte(escaped_byte(second)))
        }
    } else {
        None
    }
}

/// The first item of a substitute, and how many bytes it takes.
fn first_item(substitute: &[u8]) -> (SubstituteItem, usize)
    requires { 0 < length substitute.now }
    ensures first { substitute_items substitute.now ≡ result.0 ∷ substitute_items (drop result.1 substitute.now) }
    ensures some { 0 < result.1 }
    ensures within { result.1 ≤ length substitute.now }
{
    if substitute.len() > 1 {
        if let Some(item) = pair_item(substitute[0], substitute[1]) {
            return (item, 2);
        }
    }
    (SubstituteItem::Byte(substitute[0]), 1)
}

/// Adds a run of bytes, if there are any.
fn push_text(parts: &mut Vec<Part>, text: Vec<u8>) -> Result<(), AllocError>
    ensures { OnOk result (items_in_all parts.new.items
        ≡ items_in_all parts.old.items ++ map SubstituteItem.Byte text.items) }
{
    if !text.is_empty() {
        parts.push(Part::Text(text))?;
    }
    Ok(())
}

/// Adds an item. `run` are the bytes before it that are in no part yet.
fn push_item(
    alloc: Global,
    parts: &mut Vec<Part>,
    run: &mut Vec<u8>,
    item: SubstituteItem,
) -> Result<(), AllocError>
    ensures { OnOk result (items_in_all parts.new.items ++ map SubstituteItem.Byte run.new.items
        ≡ (items_in_all parts.old.items ++ map SubstituteItem.Byte run.old.items) ++ item ∷ []) }
{
    match item {
        SubstituteItem::Byte(byte) => run.push(byte)?,
        SubstituteItem::Group(group) => {
            push_text(parts, mem::replace(run, Vec::new(alloc)))?;
            parts.push(Part::Group(group))?;
        }
    }
    Ok(())
}

fn read_items(alloc: Global, substitute: &[u8]) -> Result<Vec<Part>, AllocError>
    ensures { IfOk result (λ parts. items_in_all parts.items ≡ substitute_items substitute.now) }
{
    let mut parts = Vec::new(alloc);
    let mut run = Vec::new(alloc);
    let mut at = 0;
    'items: while at < substitute.len() {
        let (item, width) = first_item(&substitute[at..]);
        push_item(alloc, &mut parts, &mut run, item)?;
        at += width;
    }
    push_text(&mut parts, run)?;
    Ok(parts)
}

/// The parts of a substitute, which stands for plain text if `plain` is true.
pub(crate) fn read_parts(
    alloc: Global,
    plain: bool,
    substitute: &[u8],
) -> Result<Vec<Part>, AllocError>
    ensures { IfOk result (λ parts. items_in_all parts.items ≡ items_by_flag plain substitute.now) }
{
    if plain {
        let mut parts = Vec::new(alloc);
        push_text(&mut parts, substitute.to_vec(alloc)?)?;
        Ok(parts)
    } else {
        read_items(alloc, substitute)
    }
}
