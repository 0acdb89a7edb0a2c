// What is planned for a request that is sent on.
ghost use Rattle.std.specs.Prelude.{◌≡◌, IfOk};
ghost use Rattle.px_judging.specs.Judging.{plan_by, tunnel_of};
ghost use Rattle.px_judging.specs.Sending.{next_target, sent_head};

use crate::connects::{greeting, tunnel_head};
use crate::judgements::{Errand, Plan, TunnelPlan};
use crate::requests::{Request, RequestTags};
use px_actions::Kind;
use px_base::{Mem, Text};
use px_config::Config;
use px_decide::route;
use px_fields::Field;
use px_framing::BodyRule;
use px_headers::ClientOut;
use px_notes::{Asked, Message};
use px_patterns::Url;
use px_sending::{NextHead, next_head};
use px_subst::Vars;
use std::alloc::Global;

/// The target that is sent on (RFC 9112, section 3.2): a parent is sent the whole URL, an origin the path.
fn next_target(alloc: Global, parent: bool, url: &Url) -> Result<Text, Mem>
    ensures { IfOk result (λ text. text ≡ next_target parent url.now) }
{
    if parent {
        url.print(alloc)
    } else {
        Text::from_bytes(alloc, url.path.as_bytes())
    }
}

/// The head that is sent on.
fn sent_head(
    alloc: Global,
    method: &[u8],
    url: &Url,
    parent: bool,
    downgrade: bool,
    fields: &[Field],
    rule: BodyRule,
) -> Result<Text, Mem>
    ensures { IfOk result (λ head. head ≡ sent_head method.now url.now parent downgrade fields.now rule) }
{
    let target = next_target(alloc, parent, url)?;
    let host = url.host_port(alloc)?;
    next_head(
        alloc,
        &NextHead {
            method,
            target: target.as_bytes(),
            host: host.as_bytes(),
            downgrade,
            fields,
            rule,
        },
    )
}

/// What of a request's head is needed when its fields are gone.
#[derive(Drop)]
pub struct RequestFront {
    pub method: Text,
    pub minor: u8,
    pub rule: BodyRule,
    pub keep: bool,
    pub expects: bool,
    pub bodiless: bool,
}

/// The plan of a request whose head became `out`.
#[tactic(auto, unfolding(crate::specs::Judging::plan_by))]
pub fn plan_by(
    alloc: Global,
    config: &Config,
    moment: u64,
    front: RequestFront,
    tags: RequestTags,
    vars: Vars,
    out: ClientOut,
) -> Result<Plan, Mem>
    ensures { IfOk result (λ plan. plan ≡ plan_by config.now moment front tags vars out) }
{
    let ClientOut { url, fields } = out;
    let route = route(alloc, &url, &tags.set, &config.forwards)?;
    let sent = sent_head(
        alloc,
        front.method.as_bytes(),
        &url,
        route.parent,
        tags.set.is_on(Kind::DowngradeHttpVersion),
        fields.as_slice(),
        front.rule,
    )?;
    let message = Message {
        head: sent,
        rule: front.rule,
        expects: front.expects,
    };
    let asked = Asked {
        method: front.method,
        minor: front.minor,
        keep: front.keep,
        set: tags.set,
        tags: tags.tags,
        vars,
        moment,
    };
    Ok(Plan {
        url,
        route,
        errand: Errand { message, asked },
        bodiless: front.bodiless,
    })
}

/// The plan of a tunnel.
#[tactic(auto, unfolding(crate::specs::Judging::tunnel_of))]
pub fn tunnel_of(
    alloc: Global,
    config: &Config,
    request: Request,
    tags: RequestTags,
) -> Result<TunnelPlan, Mem>
    ensures { IfOk result (λ plan. plan ≡ tunnel_of config.now request tags) }
{
    let route = route(alloc, &request.url, &tags.set, &config.forwards)?;
    let head = tunnel_head(alloc, route.parent, &request.url)?;
    let greeting = greeting(alloc, route.parent)?;
    Ok(TunnelPlan {
        url: request.url,
        route,
        head,
        greeting,
    })
}
