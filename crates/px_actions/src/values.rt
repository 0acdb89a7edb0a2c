// Values that keep the rule of their kind, read by it.
ghost use Rattle.std.specs.Prelude.{◌≡◌, ◌≤◌, false, IfOk, IsTrue, Some};
ghost use Rattle.px_base.specs.Numbers.{decimal};
ghost use Rattle.px_base.specs.Ports.{port_list};
ghost use Rattle.px_fields.specs.FieldLines.{read_field};
ghost use Rattle.px_fields.specs.Names.{is_held_back_of_request};
ghost use Rattle.px_actions.specs.Hops.{seen_hop};
ghost use Rattle.px_actions.specs.Kinds.{entry_of};
ghost use Rattle.px_actions.specs.Rules.{keeps_rule, override_hop};

use crate::hops::Hop;
use crate::kinds::Kind;
use crate::rules::{MOST_MINUTES, read_override};
use px_base::{Mem, Ports, PortsFault, as_text, read_decimal};
use px_fields::{FieldLine, read_field_line};
use std::alloc::Global;

/// A value as a text.
#[tactic(auto, using(crate::proofs::RuleLemmas::keeps_text))]
pub fn value_text(kind: Kind, value: &[u8]) -> &str
    requires { IsTrue (keeps_rule (entry_of kind).rule value.now) }
    ensures { result.now ≡ value.now }
{
    match as_text(value) {
        Some(text) => text,
        None => "",
    }
}

/// The cap on the lifetime of cookies, in minutes, of a value of `limit-cookie-lifetime`.
pub fn lifetime_minutes(value: &[u8]) -> u64
    requires { IsTrue (keeps_rule (entry_of Kind.LimitCookieLifetime).rule value.now) }
    ensures minutes { decimal 100000000 value.now ≡ Some result }
{
    match read_decimal(value, MOST_MINUTES) {
        Some(minutes) => minutes,
        None => 0,
    }
}

/// The field of a value of `add-header`, whose name isn't held back from requests.
pub fn added_field(value: &[u8]) -> FieldLine<'_>
    requires { IsTrue (keeps_rule (entry_of Kind.AddHeader).rule value.now) }
    ensures field { read_field value.now ≡ Some (record { name = result.name.now; value = result.value.now }) }
    ensures sent { is_held_back_of_request result.name.now ≡ false }
{
    match read_field_line(value) {
        Some(field) => field,
        None => FieldLine {
            name: b"",
            value: b"",
        },
    }
}

/// The next hop of a value of `forward-override`.
pub fn override_hop(value: &[u8]) -> Hop<'_>
    requires { IsTrue (keeps_rule (entry_of Kind.ForwardOverride).rule value.now) }
    ensures { override_hop value.now ≡ Some (seen_hop result) }
{
    match read_override(value) {
        Some(hop) => hop,
        None => Hop::Direct,
    }
}

/// The ports of a value of `limit-connect`.
pub fn allowed_ports(alloc: Global, value: &[u8]) -> Result<Ports, Mem>
    requires { IsTrue (keeps_rule (entry_of Kind.LimitConnect).rule value.now) }
    ensures { IfOk result (λ ports. port_list value.now ≡ Some ports) }
{
    match Ports::read(alloc, value_text(Kind::LimitConnect, value)) {
        Ok(ports) => Ok(ports),
        Err(PortsFault::Bad) => Err(Mem),
        Err(PortsFault::Mem) => Err(Mem),
    }
}
