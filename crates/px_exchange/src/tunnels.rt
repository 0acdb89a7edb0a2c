// Tunnels: the one dial of a tunnel, what asks a parent for it and what tells the client of it, and both directions.
ghost use Rattle.std.specs.Prelude.{◌≡◌, ◌++◌, IsTrue, false};
ghost use Rattle.px_base.specs.Dials.{DialerGoesOn, IsFresh};
ghost use Rattle.px_base.specs.Sinks.{SinkGoesOn};
ghost use Rattle.px_base.specs.Sources.{SourceGoesOn};
ghost use Rattle.px_streams.specs.Feeds.{bytes_behind};
ghost use Rattle.px_templates.specs.declared.pages.Page as page;
ghost use Rattle.px_pumps.specs.declared.dues.Due as due;
ghost use Rattle.px_exchange.specs.Causes.{TalkReadCause, TalkStaysOpen, TalkWriteCause, TunnelLinkCause, TunnelPageCause};
ghost use Rattle.px_exchange.specs.Exchange.{Does, DoesOver, WhereFailed, link_seen};
ghost use Rattle.px_exchange.specs.Rows.{Tunnel, after_tunnel, carried_so};

use crate::dialling::{no_name_page, not_reached_page};
use px_base::{DialFault, Dialer, Sink, SinkFault, Source, write_all};
use px_judging::TunnelPlan;
use px_notes::{After, Conclusion, Ending, broken};
use px_pumps::Talked;
use px_streams::{Ahead, Feed};
use px_templates::Page;
use px_ways::{Carried, Way, carry};
use std::thread::Threads;

/// What comes after a tunnel: a fault of the client's source, or else one of its sink, or the close.
fn after_tunnel(client_read: bool, client_write: bool) -> After
    ensures { result ≡ after_tunnel client_read client_write }
{
    if client_read {
        After::ReadFailed
    } else if client_write {
        After::WriteFailed
    } else {
        After::Close
    }
}

/// How an exchange is concluded by what came of both directions.
fn carried_so(carried: Carried) -> Conclusion
    ensures { result ≡ carried_so carried }
{
    if carried.no_memory {
        broken(After::NoMemory)
    } else {
        Conclusion {
            ending: Ending::Tunnel,
            after: after_tunnel(carried.client_read, carried.client_write),
        }
    }
}

/// Asks a parent for a tunnel or tells the client of it, as the plan says, and carries both directions over a link.
fn tunnel_over<R: Threads + Sync, S: Source, I: Source, P: Sink, O: Sink>(
    way: &Way<'_, R>,
    plan: &TunnelPlan,
    client_in: &mut S,
    ahead: &mut Ahead,
    link_in: &mut I,
    link_out: &mut P,
    client_out: &mut O,
) -> Talked
    ensures talks { IsTrue (S.state client_in.old).tells → IsTrue (I.state link_in.old).tells → IsTrue (P.state link_out.old).tells → IsTrue (O.state client_out.old).tells
        → IsFresh (record { link_in = I.state link_in.old; link_out = P.state link_out.old })
        → (page_due : page.Page → due.Due)
        → WhereFailed (O.state client_out.old) (O.state client_out.new) (λ failed. DoesOver failed (Tunnel page_due plan.now)
        (record { stream = ahead.old ++ (S.state client_in.old).left; behind = ahead.new ++ (S.state client_in.new).left })
        (O.state client_out.old).taken (O.state client_out.new).taken result (link_seen (I.state link_in.new) (P.state link_out.new))) }
    ensures read_cause { TalkReadCause (S.state client_in.old) (S.state client_in.new) result }
    ensures write_cause { TalkWriteCause (O.state client_out.old) (O.state client_out.new) result }
    ensures page_cause { TunnelLinkCause (P.state link_out.old) (P.state link_out.new) result }
    ensures link_calm { IsTrue (P.state link_out.old).steady → (P.state link_out.old).finished ≡ false → (P.state link_out.new).faults ≡ (P.state link_out.old).faults }
    ensures open { TalkStaysOpen (O.state client_out.old) (O.state client_out.new) result }
    ensures client_goes_on { SourceGoesOn (S.state client_in.old) (S.state client_in.new) }
    ensures in_goes_on { SourceGoesOn (I.state link_in.old) (I.state link_in.new) }
    ensures out_goes_on { SinkGoesOn (P.state link_out.old) (P.state link_out.new) }
    ensures goes_on { SinkGoesOn (O.state client_out.old) (O.state client_out.new) }
{
    match write_all(link_out, plan.head.as_bytes()) {
        Ok(()) => {}
        Err(SinkFault::Failed) => return Talked::Page(Page::SendFailed),
        Err(SinkFault::Mem) => return Talked::Ended(broken(After::NoMemory)),
    }
    match write_all(client_out, plan.greeting.as_bytes()) {
        Ok(()) => {}
        Err(SinkFault::Failed) => return Talked::Ended(broken(After::WriteFailed)),
        Err(SinkFault::Mem) => return Talked::Ended(broken(After::NoMemory)),
    }
    let carried = carry(
        way,
        ahead.as_bytes(),
        client_in,
        client_out,
        link_in,
        link_out,
    );
    let count = ahead.as_bytes().len();
    ahead.skip(count);
    Talked::Ended(carried_so(carried))
}

/// Dials by the route of a tunnel, opens and carries it, and hangs up.
pub fn dial_tunnel<R: Threads + Sync, S: Source, D: Dialer, O: Sink>(
    way: &Way<'_, R>,
    plan: &TunnelPlan,
    client: &mut Feed<S>,
    client_out: &mut O,
    dialer: &mut D,
) -> Talked
    ensures talks { IsTrue client.old.source.tells → IsTrue (O.state client_out.old).tells → IsTrue (D.state dialer.old).tells
        → (page_due : page.Page → due.Due)
        → WhereFailed (O.state client_out.old) (O.state client_out.new) (λ failed. Does failed (Tunnel page_due plan.now)
        (record { stream = bytes_behind client.old; behind = bytes_behind client.new })
        (D.state dialer.old) (D.state dialer.new) (O.state client_out.old).taken (O.state client_out.new).taken result) }
    ensures read_cause { TalkReadCause client.old.source client.new.source result }
    ensures write_cause { TalkWriteCause (O.state client_out.old) (O.state client_out.new) result }
    ensures page_cause { TunnelPageCause (D.state dialer.old) (D.state dialer.new) result }
    ensures open { TalkStaysOpen (O.state client_out.old) (O.state client_out.new) result }
    ensures in_goes_on { SourceGoesOn client.old.source client.new.source }
    ensures out_goes_on { SinkGoesOn (O.state client_out.old) (O.state client_out.new) }
    ensures goes_on { DialerGoesOn (D.state dialer.old) (D.state dialer.new) }
{
    match dialer.dial(plan.route.host.as_bytes(), plan.route.port) {
        Ok((mut link_in, mut link_out)) => {
            let talked = tunnel_over(
                way,
                plan,
                &mut client.source,
                &mut client.ahead,
                &mut link_in,
                &mut link_out,
                client_out,
            );
            dialer.hang_up(link_in, link_out);
            talked
        }
        Err(DialFault::NoName) => Talked::Page(no_name_page(&plan.route)),
        Err(DialFault::NotReached) => Talked::Page(not_reached_page(&plan.route)),
        Err(DialFault::Mem) => Talked::Ended(broken(After::NoMemory)),
    }
}
