// The rules of parameters.
ghost use Rattle.std.specs.Prelude.{◌≡◌, ◌&&◌, ◌||◌, not, nat_le, length, is_some, IfOk, IfSome, option_map};
ghost use Rattle.std.specs.List.{list_all};
ghost use Rattle.std.specs.Str.{bytes_eq};
ghost use Rattle.px_base.specs.Numbers.{decimal};
ghost use Rattle.px_base.specs.Ports.{port_list};
ghost use Rattle.px_actions.specs.Rules.{is_control, is_plain_text, override_hop, hop_behind, meets, keeps_rule, may_add};
ghost use Rattle.px_fields.specs.FieldLines.{read_field};
ghost use Rattle.px_actions.specs.Hops.{seen_hop};

use crate::braces::without_front;
use crate::hops::{Hop, read_hop};
use crate::kinds::Rule;
use px_base::{Mem, Ports, PortsFault, as_text, is_blank, read_decimal};
use px_fields::{is_held_back_of_request, read_field_line};
use std::alloc::Global;

/// The word before the next hop in the parameter of `forward-override`.
const FORWARD: &[u8] = b"forward";

/// The longest cap of a cookie's lifetime, in minutes, and its most digits.
pub(crate) const MOST_MINUTES: u64 = 100_000_000;

const MINUTE_DIGITS: usize = 9;

/// Whether no byte is a control byte other than the tab.
fn has_no_control(text: &[u8]) -> bool
    ensures { result ≡ list_all (λ b. not (is_control b)) text.now }
{
    text.iter()
        .all(|byte| !((*byte < 32 && *byte != b'\t') || *byte == 127))
}

/// The next hop of a parameter of `forward-override`: `forward`, white space and a next hop.
#[tactic(auto, unfolding(crate::specs::Rules::override_hop))]
pub fn read_override(text: &[u8]) -> Option<Hop<'_>>
    ensures { option_map seen_hop result ≡ override_hop text.now }
{
    match text.strip_prefix(FORWARD) {
        Some(rest) => hop_behind(rest),
        None => None,
    }
}

fn hop_behind(text: &[u8]) -> Option<Hop<'_>>
    ensures { option_map seen_hop result ≡ hop_behind text.now }
{
    match text.split_first() {
        Some((byte, rest)) => {
            if is_blank(*byte) {
                read_hop(without_front(rest))
            } else {
                None
            }
        }
        None => None,
    }
}

fn is_override(text: &[u8]) -> bool
    ensures { result ≡ is_some (override_hop text.now) }
{
    read_override(text).is_some()
}

/// Whether a text is a field line that may be added to requests.
fn is_added_field(text: &[u8]) -> bool
    ensures { result ≡ may_add (read_field text.now) }
{
    match read_field_line(text) {
        Some(field) => !is_held_back_of_request(field.name),
        None => false,
    }
}

fn is_port_list(alloc: Global, text: &str) -> Result<bool, Mem>
    ensures { IfOk result (λ b. b ≡ is_some (port_list text.now)) }
{
    match Ports::read(alloc, text) {
        Ok(_) => Ok(true),
        Err(PortsFault::Bad) => Ok(false),
        Err(PortsFault::Mem) => Err(Mem),
    }
}

fn is_minutes(text: &[u8]) -> bool
    ensures { result ≡ (nat_le (length text.now) 9 && is_some (decimal 100000000 text.now)) }
{
    text.len() <= MINUTE_DIGITS && read_decimal(text, MOST_MINUTES).is_some()
}

fn is_one_of(text: &[u8], first: &[u8], second: &[u8]) -> bool
    ensures { result ≡ (bytes_eq text.now first.now || bytes_eq text.now second.now) }
{
    text == first || text == second
}

/// Whether a parameter meets what its rule asks beside plain text.
#[tactic(auto, unfolding(crate::specs::Rules::meets))]
fn meets(alloc: Global, rule: Rule, parameter: &str) -> Result<bool, Mem>
    ensures { IfOk result (λ b. b ≡ meets rule parameter.now) }
{
    let text = parameter.as_bytes();
    match rule {
        Rule::Nothing => Ok(false),
        Rule::Text => Ok(!text.is_empty()),
        Rule::TextOrEmpty => Ok(true),
        Rule::BlockOrAdd => Ok(is_one_of(text, b"block", b"add")),
        Rule::RedirectCheck => Ok(is_one_of(text, b"simple-check", b"check-decoded-url")),
        Rule::ModifiedDate => Ok(
            is_one_of(text, b"block", b"reset-to-request-time") || text == b"randomize".as_slice(),
        ),
        Rule::Parent => Ok(is_override(text)),
        Rule::Ports => {
            if text.is_empty() {
                Ok(false)
            } else {
                is_port_list(alloc, parameter)
            }
        }
        Rule::Minutes => Ok(is_minutes(text)),
        Rule::AddedField => Ok(is_added_field(text)),
    }
}

/// The bytes as a text, if they are UTF-8 without control bytes other than the tab.
#[tactic(auto, unfolding(crate::specs::Rules::is_plain_text))]
fn plain_text(bytes: &[u8]) -> Option<&str>
    ensures plain { is_some result ≡ is_plain_text bytes.now }
    ensures same { IfSome result (λ text. text.now ≡ bytes.now) }
{
    match as_text(bytes) {
        Some(text) => {
            if has_no_control(bytes) {
                Some(text)
            } else {
                None
            }
        }
        None => None,
    }
}

/// Whether a parameter without white space at its ends keeps its rule. Memory is taken for port lists alone.
#[tactic(auto, unfolding(crate::specs::Rules::keeps_rule))]
pub(crate) fn keeps(alloc: Global, rule: Rule, parameter: &[u8]) -> Result<bool, Mem>
    ensures { IfOk result (λ b. b ≡ keeps_rule rule parameter.now) }
{
    match plain_text(parameter) {
        Some(text) => meets(alloc, rule, text),
        None => Ok(false),
    }
}
