// Which host a word alone stands for: `||h^`, `*.h`, `.h` or `h`.
ghost use Rattle.std.specs.Prelude.{◌≡◌, ◌≤◌, ◌==◌, IfSome, length, option_copied};
ghost use Rattle.std.specs.List.{list_all, slice_split};
ghost use Rattle.px_host_lists.specs.Rules.{anchored_host, is_whole_option, leaves_whole, named_where, rule_host};

use crate::names::host_named;
use crate::{CARET, COMMA, DOLLAR, HOST_LENGTH};
use px_base::{cut, place, same_without_case};

/// The host that a word alone stands for, if it does for one.
#[tactic(auto, unfolding(crate::specs::Rules::rule_host))]
pub(crate) fn rule_host(word: &[u8]) -> Option<&[u8]>
    ensures host { option_copied result ≡ rule_host word.now }
    ensures within { IfSome result (λ host. length host.now ≤ HOST_LENGTH) }
{
    if word.starts_with(b"||") {
        return anchored_host(&word[2..]);
    }
    if word.starts_with(b"*.") {
        return host_named(&word[2..]);
    }
    if word.starts_with(b".") {
        return host_named(&word[1..]);
    }
    host_named(word)
}

/// The host before `^`, where what follows leaves the whole of it.
#[tactic(auto, unfolding(crate::specs::Rules::anchored_host))]
fn anchored_host(rule: &[u8]) -> Option<&[u8]>
    ensures host { option_copied result ≡ anchored_host rule.now }
    ensures within { IfSome result (λ host. length host.now ≤ HOST_LENGTH) }
{
    match place(rule, CARET) {
        None => None,
        Some(at) => named_where(leaves_whole(&rule[at + 1..]), &rule[..at]),
    }
}

/// The host that a name is, if that is asked for.
fn named_where(asked: bool, name: &[u8]) -> Option<&[u8]>
    ensures host { option_copied result ≡ named_where asked name.now }
    ensures within { IfSome result (λ host. length host.now ≤ HOST_LENGTH) }
{
    if asked { host_named(name) } else { None }
}

/// Whether options leave a rule for the whole of a host: nothing, or `$` and options that do.
fn leaves_whole(options: &[u8]) -> bool
    ensures { result ≡ leaves_whole options.now }
{
    if options.is_empty() {
        return true;
    }
    if options[0] != DOLLAR {
        return false;
    }
    are_whole_options(&options[1..])
}

/// Whether each option between commas is one of those.
fn are_whole_options(text: &[u8]) -> bool
    ensures { result ≡ list_all is_whole_option (slice_split (λ b. b == 44) text.now) }
{
    let mut rest = text;
    'options: loop {
        let (option, behind) = cut(rest, COMMA);
        if !is_whole_option(option) {
            return false;
        }
        match behind {
            Some(more) => rest = more,
            None => return true,
        }
    }
}

fn is_whole_option(option: &[u8]) -> bool
    ensures { result ≡ is_whole_option option.now }
{
    same_without_case(option, b"important")
        || same_without_case(option, b"all")
        || same_without_case(option, b"doc")
        || same_without_case(option, b"document")
        || same_without_case(option, b"popup")
}
