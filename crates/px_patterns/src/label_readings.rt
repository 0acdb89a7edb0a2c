// Reads labels of host patterns.
ghost use Rattle.std.specs.Prelude.{◌≡◌, ◌<◌, None, Some, IfErr, IfOk, length};
ghost use Rattle.std.specs.List.{list_any};
ghost use Rattle.px_patterns.specs.Faults.{IsClassRefusal};
ghost use Rattle.px_patterns.specs.Globs.{class_of, is_wild, glob_item, items_from, label_of, class_ranges, with_range};

use crate::{
    CLASS_BEGIN, CLASS_END, ClassRange, DASH, LabelItem, LabelPattern, PatternFault, QUESTION_MARK,
    STAR,
};
use memchr::memchr;
use px_base::{List, Text};
use std::alloc::Global;

/// Reads a label; of refusals only `BadClass` comes.
#[tactic(auto, unfolding(crate::specs::Globs::label_of))]
pub fn read_label(alloc: Global, text: &[u8]) -> Result<LabelPattern, PatternFault>
    ensures label { IfOk result (λ label. label_of text.now ≡ Some label) }
    ensures refused { IfErr result (IsClassRefusal (label_of text.now)) }
{
    if !has_wild(text) {
        return Ok(LabelPattern::Plain(Text::from_bytes(alloc, text)?));
    }
    let items = read_items(alloc, text)?;
    Ok(LabelPattern::Glob(items))
}

/// Whether a label holds `*`, `?` or `[`.
fn has_wild(text: &[u8]) -> bool
    ensures { result ≡ list_any is_wild text.now }
{
    text.iter().any(|byte| is_wild(*byte))
}

fn is_wild(byte: u8) -> bool
    ensures { result ≡ is_wild byte }
{
    byte == STAR || byte == QUESTION_MARK || byte == CLASS_BEGIN
}

/// Reads the items of a label.
fn read_items(alloc: Global, text: &[u8]) -> Result<List<LabelItem>, PatternFault>
    ensures items { IfOk result (λ items. items_from None text.now ≡ Some items) }
    ensures refused { IfErr result (IsClassRefusal (items_from None text.now)) }
{
    let mut items = List::new(alloc);
    let mut rest = text;
    'reads: while !rest.is_empty() {
        let first = rest[0];
        let behind = &rest[1..];
        if first == CLASS_BEGIN {
            match memchr(CLASS_END, behind) {
                Some(at) => {
                    let (content, after) = behind.split_at(at);
                    let class = read_class(alloc, content)?;
                    items.add(class)?;
                    rest = &after[1..];
                }
                None => return Err(PatternFault::BadClass),
            }
        } else {
            items.add(item_of(first))?;
            rest = behind;
        }
    }
    Ok(items)
}

/// The item of a byte outside of a class.
fn item_of(byte: u8) -> LabelItem
    ensures { result ≡ glob_item byte }
{
    if byte == STAR {
        LabelItem::AnyRun
    } else if byte == QUESTION_MARK {
        LabelItem::AnyByte
    } else {
        LabelItem::Byte(byte)
    }
}

/// Reads what stands between the brackets of a class.
fn read_class(alloc: Global, bytes: &[u8]) -> Result<LabelItem, PatternFault>
    ensures class { IfOk result (λ class. class_of bytes.now ≡ Some class) }
    ensures refused { IfErr result (IsClassRefusal (class_of bytes.now)) }
{
    if bytes.is_empty() {
        return Err(PatternFault::BadClass);
    }
    let ranges = read_ranges(alloc, bytes)?;
    Ok(LabelItem::Class(ranges))
}

/// Reads the ranges of a class.
fn read_ranges(alloc: Global, bytes: &[u8]) -> Result<List<ClassRange>, PatternFault>
    ensures ranges { IfOk result (λ ranges. class_ranges bytes.now ≡ Some ranges) }
    ensures refused { IfErr result (IsClassRefusal (class_ranges bytes.now)) }
{
    let mut ranges = List::new(alloc);
    let mut rest = bytes;
    'reads: while !rest.is_empty() {
        let (range, behind) = first_range(rest);
        if range.last < range.first {
            return Err(PatternFault::BadClass);
        }
        ranges.add(range)?;
        rest = behind;
    }
    Ok(ranges)
}

/// The range at the front of a class: a byte, or two with a dash between them.
fn first_range(bytes: &[u8]) -> (ClassRange, &[u8])
    requires { 0 < length bytes.now }
    ensures range { class_ranges bytes.now ≡ with_range result.0.first result.0.last (class_ranges result.1.now) }
    ensures shorter { length result.1.now < length bytes.now }
{
    let first = bytes[0];
    if bytes.len() > 2 && bytes[1] == DASH {
        let last = bytes[2];
        return (ClassRange { first, last }, &bytes[3..]);
    }
    (ClassRange { first, last: first }, &bytes[1..])
}
