// What becomes of the head of an answer.
ghost use Rattle.std.specs.Prelude.{◌≡◌, [], IfOk};
ghost use Rattle.px_headers.specs.Rewrites.{answer_line};
ghost use Rattle.px_headers.specs.ServerRows.{server_fields, server_out};

use crate::filtering::{filter_lines, filtered_line, has_filters};
use crate::held_back::{HeldBack, MessageKind, pass_on};
use crate::rewrites::kept_status_line;
use crate::rules::HeaderRules;
use crate::server_rows::{new_content_type, server_rows};
use px_base::{List, Mem, Text};
use px_fields::Field;
use px_filter_files::WarmFilters;
use px_head::ResponseHead;
use std::alloc::Global;
use std::mem;

/// The status line and the fields of an answer that is returned.
#[derive(Drop)]
pub struct ServerOut {
    /// Without its end.
    pub first_line: Text,
    pub fields: List<Field>,
}

/// The fields of an answer that is returned.
#[tactic(auto, unfolding(crate::specs::ServerRows::server_fields))]
fn server_fields(
    alloc: Global,
    received: List<Field>,
    rules: &HeaderRules<'_>,
    warm: &mut WarmFilters<'_>,
    moment: u64,
) -> Result<List<Field>, Mem>
    requires { warm.old ≡ rules.now.filters.now }
    ensures value { IfOk result (λ fields. fields ≡ server_fields rules.now.set.now rules.now.filters.now rules.now.vars.now moment received) }
    ensures same { warm.new ≡ warm.old }
{
    let held = HeldBack::of(alloc, MessageKind::Response, received.as_slice())?;
    let content_type = new_content_type(rules.set, received.as_slice());
    let fields = pass_on(received, &held);
    let fields = server_rows(alloc, fields, rules.set, moment, content_type)?;
    filter_lines(alloc, fields, &held, rules, warm)
}

/// The status line behind the header filters.
#[tactic(auto, unfolding(crate::specs::Rewrites::answer_line, crate::specs::Filtering::filter_line))]
fn answer_line(
    alloc: Global,
    head: &ResponseHead,
    rules: &HeaderRules<'_>,
    warm: &mut WarmFilters<'_>,
) -> Result<Text, Mem>
    requires { warm.old ≡ rules.now.filters.now }
    ensures value { IfOk result (λ line. line ≡ answer_line rules.now.set.now rules.now.filters.now rules.now.vars.now head.now) }
    ensures same { warm.new ≡ warm.old }
{
    let line = head.first_line(alloc)?;
    if !has_filters(MessageKind::Response, rules) {
        return Ok(line);
    }
    let new = filtered_line(alloc, MessageKind::Response, rules, warm, line.as_bytes())?;
    Ok(kept_status_line(head.status, line, new))
}

/// The status line and the fields of an answer that is returned, by the actions of its request (Privoxy's manual, "Actions").
/// `moment` is in seconds since 1970; `warm` is the store of the filters. The fields
/// are taken out of the head, also where memory is wanting, and those that nothing changes are moved.
///
/// The fields that speak of one connection, Content-Length and the fields that a Connection field names are taken out first.
/// Then come crunch-incoming-cookies, session-cookies-only or else limit-cookie-lifetime, content-type-overwrite,
/// overwrite-last-modified, hide-content-disposition, crunch-server-header and server-header-filter, each of all fields. A
/// changed status line counts where it is a status line of the same status.
#[tactic(auto, unfolding(crate::specs::ServerRows::server_out, crate::specs::Rewrites::answer_line, px_head::specs::Prints::status_line))]
pub fn server_headers(
    alloc: Global,
    head: &mut ResponseHead,
    rules: &HeaderRules<'_>,
    warm: &mut WarmFilters<'_>,
    moment: u64,
) -> Result<ServerOut, Mem>
    requires { warm.old ≡ rules.now.filters.now }
    ensures out { IfOk result (λ out. out ≡ server_out rules.now.set.now rules.now.filters.now rules.now.vars.now moment head.old) }
    ensures taken { head.new.fields ≡ [] }
    ensures minor { head.new.minor ≡ head.old.minor }
    ensures status { head.new.status ≡ head.old.status }
    ensures reason { head.new.reason ≡ head.old.reason }
    ensures same { warm.new ≡ warm.old }
{
    let received = mem::replace(&mut head.fields, List::new(alloc));
    let first_line = answer_line(alloc, head, rules, warm)?;
    let fields = server_fields(alloc, received, rules, warm, moment)?;
    Ok(ServerOut { first_line, fields })
}
