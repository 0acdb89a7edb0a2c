// Reads host patterns.
ghost use Rattle.std.specs.Prelude.{◌≡◌, ◌==◌, Some, Ok, IfErr, IfOk, length};
ghost use Rattle.std.specs.List.{list_any};
ghost use Rattle.px_patterns.specs.Faults.{IsClassRefusal, IsPatternRefusal};
ghost use Rattle.px_patterns.specs.Hosts.{begins_with_dot, ends_with_dot, host_pattern, is_every_host, labels_in, labels_of, without_first_dot};

use crate::hosts::{ends_with_dot, without_last_dot};
use crate::label_readings::read_label;
use crate::{DOT, HostLabels, HostPattern, LabelPattern, PatternFault};
use px_base::{List, cut};
use std::alloc::Global;

/// Reads a host pattern; of refusals only `EmptyLabel` and `BadClass` come, in that order.
pub fn read_host(alloc: Global, text: &[u8]) -> Result<HostPattern, PatternFault>
    ensures pattern { IfOk result (λ pattern. host_pattern text.now ≡ Ok pattern) }
    ensures refused { IfErr result (IsPatternRefusal (host_pattern text.now)) }
{
    if is_every_host(text) {
        return Ok(HostPattern::Always);
    }
    let inside = without_last_dot(without_first_dot(text));
    if has_empty_label(inside) {
        return Err(PatternFault::EmptyLabel);
    }
    let labels = read_labels(alloc, inside)?;
    Ok(HostPattern::Labels(HostLabels {
        open_front: begins_with_dot(text),
        open_end: ends_with_dot(text),
        labels,
    }))
}

/// Whether a text is empty, or a dot alone.
fn is_every_host(text: &[u8]) -> bool
    ensures { result ≡ is_every_host text.now }
{
    text.is_empty() || (text.len() == 1 && begins_with_dot(text))
}

fn begins_with_dot(text: &[u8]) -> bool
    ensures { result ≡ begins_with_dot text.now }
{
    !text.is_empty() && text[0] == DOT
}

/// The text without a dot at its front.
fn without_first_dot(text: &[u8]) -> &[u8]
    ensures { result.now ≡ without_first_dot text.now }
{
    if begins_with_dot(text) {
        &text[1..]
    } else {
        text
    }
}

/// Whether a label between dots is empty.
fn has_empty_label(text: &[u8]) -> bool
    ensures { result ≡ list_any (λ label. length label == 0) (labels_in text.now) }
{
    let mut rest = text;
    'labels: loop {
        let (label, behind) = cut(rest, DOT);
        if label.is_empty() {
            return true;
        }
        match behind {
            Some(more) => rest = more,
            None => return false,
        }
    }
}

/// Reads the labels between dots.
fn read_labels(alloc: Global, text: &[u8]) -> Result<List<LabelPattern>, PatternFault>
    ensures labels { IfOk result (λ labels. labels_of (labels_in text.now) ≡ Some labels) }
    ensures refused { IfErr result (IsClassRefusal (labels_of (labels_in text.now))) }
{
    let mut labels = List::new(alloc);
    let mut rest = text;
    'reads: loop {
        let (label, behind) = cut(rest, DOT);
        let label = read_label(alloc, label)?;
        labels.add(label)?;
        match behind {
            Some(more) => rest = more,
            None => return Ok(labels),
        }
    }
}
