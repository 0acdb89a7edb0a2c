// Forwarding: sends a request over a link, and returns its answer.
ghost use Rattle.std.specs.Prelude.{◌≡◌, IsTrue, Bool};
ghost use Rattle.px_base.specs.Dials.{IsFresh};
ghost use Rattle.px_base.specs.Sinks.{SinkGoesOn};
ghost use Rattle.px_base.specs.Sources.{SourceGoesOn};
ghost use Rattle.px_streams.specs.Feeds.{bytes_behind};
ghost use Rattle.px_templates.specs.declared.pages.Page as page;
ghost use Rattle.px_pumps.specs.declared.dues.Due as due;
ghost use Rattle.px_pumps.specs.Asking.{ask_of};
ghost use Rattle.px_pumps.specs.Returning.{TalkCause};
ghost use Rattle.px_exchange.specs.Causes.{TalkLinkCause, TalkReadCause};
ghost use Rattle.px_decide.specs.declared.routes.Route as route;
ghost use Rattle.px_exchange.specs.Exchange.{DoesOver, link_seen};
ghost use Rattle.px_exchange.specs.Rows.{Forward};
ghost use Rattle.px_exchange.specs.Standing.{stopped};

use px_base::{Sink, Source};
use px_config::Running;
use px_judging::Errand;
use px_notes::{After, Sent, broken};
use px_pumps::{Talked, return_answer};
use px_sending::send;
use px_streams::Feed;
use px_templates::Page;
use std::alloc::Global;

/// What came of a request that wasn't sent on whole, and nothing where it was.
fn stopped(sent: Sent) -> Option<Talked>
    ensures { result ≡ stopped sent }
{
    match sent {
        Sent::Whole => None,
        Sent::LinkFailed => Some(Talked::Page(Page::SendFailed)),
        Sent::Misframed => Some(Talked::Page(Page::InvalidRequest)),
        Sent::Cut => Some(Talked::Ended(broken(After::Cut))),
        Sent::ReadFailed => Some(Talked::Ended(broken(After::ReadFailed))),
        Sent::WriteFailed => Some(Talked::Ended(broken(After::WriteFailed))),
        Sent::NoMemory => Some(Talked::Ended(broken(After::NoMemory))),
    }
}

/// Sends a request over a link, its body as it comes from the client, and returns the answer to the client.
pub fn talk_over<S: Source, I: Source, P: Sink, O: Sink>(
    alloc: Global,
    running: &mut Running<'_>,
    errand: Errand,
    client: &mut Feed<S>,
    link_in: &mut I,
    link_out: &mut P,
    client_out: &mut O,
) -> Talked
    ensures talks { IsTrue client.old.source.tells → IsTrue (I.state link_in.old).tells → IsTrue (P.state link_out.old).tells → IsTrue (O.state client_out.old).tells
        → IsFresh (record { link_in = I.state link_in.old; link_out = P.state link_out.old })
        → (page_due : page.Page → due.Due) (by : route.Route) (failed : Bool)
        → DoesOver failed (Forward (ask_of running.old errand.asked page_due) by errand.message)
        (record { stream = bytes_behind client.old; behind = bytes_behind client.new })
        (O.state client_out.old).taken (O.state client_out.new).taken result (link_seen (I.state link_in.new) (P.state link_out.new)) }
    ensures read_cause { TalkReadCause client.old.source client.new.source result }
    ensures write_cause { TalkCause (O.state client_out.old) (O.state client_out.new) result }
    ensures page_cause { TalkLinkCause (P.state link_out.old) (P.state link_out.new) result }
    ensures link_open { (P.state link_out.new).finished ≡ (P.state link_out.old).finished }
    ensures open { (O.state client_out.new).finished ≡ (O.state client_out.old).finished }
    ensures client_goes_on { SourceGoesOn client.old.source client.new.source }
    ensures in_goes_on { SourceGoesOn (I.state link_in.old) (I.state link_in.new) }
    ensures out_goes_on { SinkGoesOn (P.state link_out.old) (P.state link_out.new) }
    ensures goes_on { SinkGoesOn (O.state client_out.old) (O.state client_out.new) }
    ensures same { running.new ≡ running.old }
{
    let Errand { message, asked } = errand;
    let sent = send(
        alloc,
        &message,
        &mut client.source,
        &mut client.ahead,
        link_out,
        client_out,
    );
    match stopped(sent) {
        Some(talked) => talked,
        None => return_answer(alloc, running, asked, link_in, client_out),
    }
}
