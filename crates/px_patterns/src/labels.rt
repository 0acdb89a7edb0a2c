// Labels of host patterns.
ghost use Rattle.std.specs.Prelude.{◌≡◌, ◌≤◌, ◌↔◌, ◌++◌, false, IsTrue, length, option_copied};
ghost use Rattle.px_patterns.specs.Globs.{CanBeCut, glob_matches, in_class, in_range, label_items, label_matches, some_tail, takes};
ghost use Rattle.px_patterns.specs.Runs.{behind_first_place, behind_run, has_run, is_run, takes_front};

use px_base::{List, Text, same_without_case};

/// Bytes from `first` to `last`, both of them included.
#[derive(Clone, Copy, Debug, PartialEq, Eq)]
pub struct ClassRange {
    pub first: u8,
    pub last: u8,
}

/// What stands in a label with `*`, `?` or `[`.
#[derive(Drop)]
pub enum LabelItem {
    /// `*`: any run of bytes.
    AnyRun,
    /// `?`: one byte.
    AnyByte,
    /// This byte, without case.
    Byte(u8),
    /// `[..]`: one byte that lies in one of the ranges, in either case.
    Class(List<ClassRange>),
}

/// A label of a host pattern.
#[derive(Drop)]
pub enum LabelPattern {
    /// A label without `*`, `?` and `[`: it matches the same text, without case.
    Plain(Text),
    /// A label that matches where it can be cut into pieces, one for each item.
    Glob(List<LabelItem>),
}

impl LabelItem {
    /// Whether it is a `*`.
    pub(crate) fn is_run(&self) -> bool
        ensures { result ≡ is_run self.now }
    {
        match self {
            LabelItem::AnyRun => true,
            LabelItem::AnyByte => false,
            LabelItem::Byte(_) => false,
            LabelItem::Class(_) => false,
        }
    }

    /// Whether the item stands for one byte, and for this one.
    #[inline]
    pub(crate) fn takes(&self, byte: u8) -> bool
        ensures { result ≡ takes self.now byte }
    {
        match self {
            LabelItem::AnyRun => false,
            LabelItem::AnyByte => true,
            LabelItem::Byte(own) => *own == byte || own.eq_ignore_ascii_case(&byte),
            LabelItem::Class(ranges) => in_class(ranges.as_slice(), byte),
        }
    }
}

/// Whether a byte lies in a class in either case.
#[inline(never)]
fn in_class(ranges: &[ClassRange], byte: u8) -> bool
    ensures { result ≡ in_class ranges.now byte }
{
    let lower = byte.to_ascii_lowercase();
    let upper = byte.to_ascii_uppercase();
    ranges
        .iter()
        .any(|range| in_range(lower, range) || in_range(upper, range))
}

fn in_range(byte: u8, range: &ClassRange) -> bool
    ensures { result ≡ in_range byte range.now }
{
    range.first <= byte && byte <= range.last
}

impl LabelPattern {
    ghost use Rattle.px_patterns.specs.Hosts.{plain_text};

    /// Its text, where it is a label without `*`, `?` and `[`.
    pub fn plain(&self) -> Option<&[u8]>
        ensures { option_copied result ≡ plain_text self.now }
    {
        match self {
            LabelPattern::Plain(text) => Some(text.as_bytes()),
            LabelPattern::Glob(_) => None,
        }
    }

    /// Whether the pattern matches a label. It takes no memory, and time in proportion to the label's length where there
    /// is at most one `*`.
    pub fn matches(&self, label: &[u8]) -> bool
        ensures value { result ≡ label_matches self.now label.now }
        ensures cut { IsTrue result ↔ CanBeCut (label_items self.now) label.now }
    {
        match self {
            LabelPattern::Plain(text) => same_without_case(text.as_bytes(), label),
            LabelPattern::Glob(items) => glob_matches(items.as_slice(), label),
        }
    }
}

/// Whether a label can be cut into pieces, one for each item.
pub(crate) fn glob_matches(items: &[LabelItem], label: &[u8]) -> bool
    ensures { result ≡ glob_matches items.now label.now }
{
    for (at, item) in items.iter().enumerate() {
        if item.is_run() {
            return run_matches(&items[at + 1..], &label[at..]);
        }
        if at == label.len() {
            return false;
        }
        if !item.takes(label[at]) {
            return false;
        }
    }
    items.len() == label.len()
}

/// The same behind a `*`: whether a label, or one of the texts at its end, can be cut.
pub(crate) fn run_matches(items: &[LabelItem], label: &[u8]) -> bool
    ensures { result ≡ some_tail (glob_matches items.now) label.now }
{
    let mut items = items;
    let mut label = label;
    'runs: loop {
        let (front, behind) = cut_at_run(items);
        match behind {
            None => {
                return front.len() <= label.len()
                    && takes_front(front, &label[label.len() - front.len()..]);
            }
            Some(more) => match behind_first(front, label) {
                None => return false,
                Some(rest) => {
                    items = more;
                    label = rest;
                }
            },
        }
    }
}

/// The items before the first `*`, and those behind it if there is one.
fn cut_at_run(items: &[LabelItem]) -> (&[LabelItem], Option<&[LabelItem]>)
    ensures cut { items.now ≡ result.0.now ++ behind_run (option_copied result.1) }
    ensures fixed { has_run result.0.now ≡ false }
{
    for (at, item) in items.iter().enumerate() {
        if item.is_run() {
            return (&items[..at], Some(&items[at + 1..]));
        }
    }
    (items, None)
}

/// Whether each of the items takes one byte at the front of the bytes.
fn takes_front(items: &[LabelItem], bytes: &[u8]) -> bool
    ensures value { result ≡ takes_front items.now bytes.now }
    ensures fits { IsTrue result → length items.now ≤ length bytes.now }
{
    if items.len() > bytes.len() {
        return false;
    }
    for (at, item) in items.iter().enumerate() {
        if !item.takes(bytes[at]) {
            return false;
        }
    }
    true
}

/// What is behind the first place where each of the items takes one byte.
fn behind_first<'a>(items: &[LabelItem], bytes: &'a [u8]) -> Option<&'a [u8]>
    ensures { option_copied result ≡ behind_first_place items.now bytes.now }
{
    let mut rest = bytes;
    'places: loop {
        if takes_front(items, rest) {
            return Some(&rest[items.len()..]);
        }
        if rest.len() <= items.len() {
            return None;
        }
        rest = &rest[1..];
    }
}
