// The label under which a URL pattern is kept.
ghost use Rattle.std.specs.Prelude.{◌≡◌, ℕ, Bool, IfOk, List, length, option_copied, true};
ghost use Rattle.px_merge.specs.Indexes.{HostKeepsUnder, KeepsUnder, PassesPlain, PlainPass};

use crate::keys::slot_number;
use crate::places::Placed;
use px_action_files::Pattern;
use px_base::Mem;
use px_patterns::{Bucket, HostPattern, LabelPattern, UrlPattern};
use std::alloc::Global;

/// Counts a label.
fn count_label(counts: &mut Vec<usize>, label: &LabelPattern)
    ensures { length counts.new.items ≡ length counts.old.items }
{
    if let Some(text) = label.plain() {
        let at = slot_number(counts.len(), text);
        if at < counts.len() {
            counts[at] = counts[at].saturating_add(1);
        }
    }
}

/// Counts the labels of a URL pattern.
fn count_labels(counts: &mut Vec<usize>, pattern: &Pattern)
    ensures { length counts.new.items ≡ length counts.old.items }
{
    'labels: for label in labels_of(pattern) {
        count_label(counts, label);
    }
}

/// The labels of a pattern; none where it isn't a URL pattern with labels.
fn labels_of(pattern: &Pattern) -> &[LabelPattern] {
    let Pattern::Url(pattern) = pattern else {
        return &[];
    };
    match pattern.host() {
        Some(own) => own.labels(),
        None => &[],
    }
}

/// Counts the labels of URL patterns.
fn count_all(counts: &mut Vec<usize>, patterns: &[Pattern])
    ensures { length counts.new.items ≡ length counts.old.items }
{
    'patterns: for pattern in patterns {
        count_labels(counts, pattern);
    }
}

/// How many labels of URL patterns there are for each of some slots.
pub fn label_counts(alloc: Global, sections: &[Placed], count: usize) -> Result<Vec<usize>, Mem>
    ensures { IfOk result (λ counts. length counts.items ≡ count) }
{
    let mut counts = vec![in alloc; 0; count]?;
    'sections: for placed in sections {
        count_all(&mut counts, placed.section.patterns.as_slice());
    }
    Ok(counts)
}

/// How many labels have the slot of a text.
fn count_of(counts: &[usize], text: &[u8]) -> usize {
    let at = slot_number(counts.len(), text);
    if at < counts.len() { counts[at] } else { 0 }
}

/// A text, or that of a label if fewer labels have its slot.
fn rarer<'a>(counts: &[usize], best: &'a [u8], label: &'a LabelPattern) -> &'a [u8]
    ensures { (test : List ℕ → Bool) → test best.now ≡ true → PassesPlain test label.now → test result.now ≡ true }
{
    let LabelPattern::Plain(text) = label else {
        return best;
    };
    let text = text.as_bytes();
    if count_of(counts, text) < count_of(counts, best) {
        return text;
    }
    best
}

/// Of a text and the texts of labels one whose slot fewest labels have.
fn rarest<'a>(counts: &[usize], first: &'a [u8], labels: &'a [LabelPattern]) -> &'a [u8]
    ensures { (test : List ℕ → Bool) → test first.now ≡ true → PlainPass test labels.now → test result.now ≡ true }
{
    let mut best = first;
    let mut rest = labels;
    'labels: while let Some((label, others)) = rest.split_first() {
        best = rarer(counts, best, label);
        rest = others;
    }
    best
}

/// The text under which a URL pattern is kept, if there is one: the address of each host that it matches, or a label of each
/// such host, one that few patterns have. A host expression has none.
pub fn key_of<'a>(counts: &[usize], pattern: &'a UrlPattern) -> Option<&'a [u8]>
    ensures { KeepsUnder pattern.now (option_copied result) }
{
    match pattern.host() {
        Some(own) => host_key(counts, own),
        None => None,
    }
}

/// The same of a host pattern.
fn host_key<'a>(counts: &[usize], own: &'a HostPattern) -> Option<&'a [u8]>
    ensures { HostKeepsUnder own.now (option_copied result) }
{
    match own.bucket() {
        Bucket::Always => None,
        Bucket::Label(text) => Some(rarest(counts, text, own.labels())),
        Bucket::Address(text) => Some(text),
    }
}
