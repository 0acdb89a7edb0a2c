// What becomes of a request, by its actions.
ghost use Rattle.std.specs.Prelude.{◌≡◌, IfOk};
ghost use Rattle.px_decide.specs.Decisions.{block_decision, decision_of, document_decision, image_decision, may_connect, redirect_decision, tunnel_decision};

use crate::redirects::target;
use crate::targets::target_text;
use px_actions::{ActionSet, Kind, allowed_ports};
use px_base::{Mem, Text};
use px_patterns::Url;
use px_subst::Vars;
use std::alloc::Global;

/// What becomes of a request.
#[derive(Drop)]
pub enum Decision {
    /// It is sent on.
    Pass,
    /// The page of a blocked request, with this reason.
    Blocked(Text),
    /// The blank image.
    ImageBlank,
    /// The image with a pattern.
    ImagePattern,
    /// An empty document.
    Empty,
    /// A redirect to this target, as it is written.
    Redirect(Text),
    /// The page of a tunnel to a port that isn't allowed.
    ConnectDenied,
}

/// What becomes of a request for this URL with these actions (Privoxy's manual, "Actions"). `connect` says that a tunnel is
/// asked for. `vars` are the values of a job's words.
///
/// `block` comes first. A tunnel then passes where `limit-connect` allows its port. Any other request is redirected by
/// `redirect`, or else by `fast-redirects`, or else it passes.
#[tactic(auto, unfolding(crate::specs::Decisions::decision_of))]
pub fn decide(
    alloc: Global,
    url: &Url,
    connect: bool,
    set: &ActionSet,
    vars: &Vars,
) -> Result<Decision, Mem>
    ensures { IfOk result (λ decision. decision ≡ decision_of url.now connect set.now vars.now) }
{
    match set.value(Kind::Block) {
        Some(reason) => block(alloc, set, reason),
        None => {
            if connect {
                tunnel(alloc, set, url.port)
            } else {
                redirect(alloc, url, set, vars)
            }
        }
    }
}

#[tactic(auto, unfolding(crate::specs::Decisions::block_decision))]
fn block(alloc: Global, set: &ActionSet, reason: &[u8]) -> Result<Decision, Mem>
    ensures { IfOk result (λ decision. decision ≡ block_decision set.now reason.now) }
{
    if !set.is_on(Kind::HandleAsImage) {
        return document(alloc, set, reason);
    }
    match set.value(Kind::SetImageBlocker) {
        Some(value) => image(alloc, value),
        None => document(alloc, set, reason),
    }
}

/// What a blocked image becomes.
fn image(alloc: Global, value: &[u8]) -> Result<Decision, Mem>
    ensures { IfOk result (λ decision. decision ≡ image_decision value.now) }
{
    if value == b"blank".as_slice() {
        Ok(Decision::ImageBlank)
    } else if value == b"pattern".as_slice() {
        Ok(Decision::ImagePattern)
    } else {
        Ok(Decision::Redirect(target_text(alloc, value)?))
    }
}

/// What a blocked request becomes that isn't an image.
fn document(alloc: Global, set: &ActionSet, reason: &[u8]) -> Result<Decision, Mem>
    ensures { IfOk result (λ decision. decision ≡ document_decision set.now reason.now) }
{
    if set.is_on(Kind::HandleAsEmptyDocument) {
        Ok(Decision::Empty)
    } else {
        Ok(Decision::Blocked(Text::from_bytes(alloc, reason)?))
    }
}

/// What becomes of a request for a tunnel.
#[tactic(auto, unfolding(crate::specs::Decisions::tunnel_decision))]
fn tunnel(alloc: Global, set: &ActionSet, port: u16) -> Result<Decision, Mem>
    ensures { IfOk result (λ decision. decision ≡ tunnel_decision set.now port) }
{
    if may_connect(alloc, set, port)? {
        Ok(Decision::Pass)
    } else {
        Ok(Decision::ConnectDenied)
    }
}

fn may_connect(alloc: Global, set: &ActionSet, port: u16) -> Result<bool, Mem>
    ensures { IfOk result (λ may. may ≡ may_connect set.now port) }
{
    match set.value(Kind::LimitConnect) {
        Some(value) => {
            let ports = allowed_ports(alloc, value)?;
            Ok(ports.allow(port))
        }
        None => Ok(true),
    }
}

/// A redirect, where there is a target.
fn redirect(alloc: Global, url: &Url, set: &ActionSet, vars: &Vars) -> Result<Decision, Mem>
    ensures { IfOk result (λ decision. decision ≡ redirect_decision url.now set.now vars.now) }
{
    match target(alloc, url, set, vars)? {
        Some(target) => Ok(Decision::Redirect(target_text(alloc, target.as_bytes())?)),
        None => Ok(Decision::Pass),
    }
}
