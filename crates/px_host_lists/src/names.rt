// Which names are hosts.
ghost use Rattle.std.specs.Prelude.{◌≡◌, ◌≤◌, ◌==◌, IfSome, length, option_copied, true};
ghost use Rattle.std.specs.List.{list_all, slice_split};
ghost use Rattle.px_host_lists.specs.Names.{host_named, is_host, is_host_label, is_label_byte, is_local, is_numeric, is_numeric_byte};

use crate::{DOT, HOST_LENGTH, LABEL_LENGTH};
use px_base::{cut, same_without_case};

/// The host that a name is, if it is one.
#[tactic(auto, unfolding(crate::specs::Names::host_named))]
pub(crate) fn host_named(name: &[u8]) -> Option<&[u8]>
    ensures host { option_copied result ≡ host_named name.now }
    ensures within { IfSome result (λ host. length host.now ≤ HOST_LENGTH) }
{
    if is_host(name) && !is_local(name) {
        Some(name)
    } else {
        None
    }
}

/// Whether a name is the machine's own. Of those with a dot there is one.
fn is_local(name: &[u8]) -> bool
    ensures { result ≡ is_local name.now }
{
    same_without_case(name, b"localhost.localdomain")
}

/// Whether a text is a host with a dot, and no address or part of one.
#[tactic(auto, unfolding(crate::specs::Names::is_host))]
fn is_host(text: &[u8]) -> bool
    ensures value { result ≡ is_host text.now }
    ensures within { result ≡ true → length text.now ≤ HOST_LENGTH }
{
    if text.len() > HOST_LENGTH {
        return false;
    }
    if is_numeric(text) {
        return false;
    }
    text.contains(&DOT) && are_host_labels(text)
}

/// Whether all bytes are digits and dots.
fn is_numeric(text: &[u8]) -> bool
    ensures { result ≡ is_numeric text.now }
{
    text.iter().all(|byte| is_numeric_byte(*byte))
}

fn is_numeric_byte(byte: u8) -> bool
    ensures { result ≡ is_numeric_byte byte }
{
    byte.is_ascii_digit() || byte == DOT
}

/// Whether each label is one.
fn are_host_labels(text: &[u8]) -> bool
    ensures { result ≡ list_all is_host_label (slice_split (λ b. b == 46) text.now) }
{
    let mut rest = text;
    'labels: loop {
        let (label, behind) = cut(rest, DOT);
        if !is_host_label(label) {
            return false;
        }
        match behind {
            Some(more) => rest = more,
            None => return true,
        }
    }
}

fn is_host_label(label: &[u8]) -> bool
    ensures { result ≡ is_host_label label.now }
{
    if label.is_empty() || label.len() > LABEL_LENGTH {
        return false;
    }
    are_label_bytes(label)
}

fn are_label_bytes(label: &[u8]) -> bool
    ensures { result ≡ list_all is_label_byte label.now }
{
    label.iter().all(|byte| is_label_byte(*byte))
}

/// Letters, digits, hyphens and underscores.
fn is_label_byte(byte: u8) -> bool
    ensures { result ≡ is_label_byte byte }
{
    byte.is_ascii_alphanumeric() || byte == b'-' || byte == b'_'
}
