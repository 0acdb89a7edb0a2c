// Dialling: the one dial of a request that is sent on.
ghost use Rattle.std.specs.Prelude.{◌≡◌, IsTrue, Bool};
ghost use Rattle.px_base.specs.Dials.{DialerGoesOn};
ghost use Rattle.px_base.specs.Sinks.{SinkGoesOn};
ghost use Rattle.px_base.specs.Sources.{SourceGoesOn};
ghost use Rattle.px_streams.specs.Feeds.{bytes_behind};
ghost use Rattle.px_templates.specs.declared.pages.Page as page;
ghost use Rattle.px_pumps.specs.declared.dues.Due as due;
ghost use Rattle.px_pumps.specs.Asking.{ask_of};
ghost use Rattle.px_pumps.specs.Returning.{TalkCause};
ghost use Rattle.px_exchange.specs.Causes.{TalkPageCause, TalkReadCause};
ghost use Rattle.px_exchange.specs.Exchange.{Does};
ghost use Rattle.px_exchange.specs.Rows.{Forward, no_name_page, not_reached_page};

use crate::forwarding::talk_over;
use px_base::{DialFault, Dialer, Sink, Source};
use px_config::Running;
use px_decide::Route;
use px_judging::Errand;
use px_notes::{After, broken};
use px_pumps::Talked;
use px_streams::Feed;
use px_templates::Page;
use std::alloc::Global;

/// The page of a dial whose host's name wasn't found.
pub fn no_name_page(route: &Route) -> Page
    ensures { result ≡ no_name_page route.now }
{
    if route.parent {
        Page::ForwardingFailed
    } else {
        Page::NoSuchDomain
    }
}

/// The page of a dial whose host wasn't reached.
pub fn not_reached_page(route: &Route) -> Page
    ensures { result ≡ not_reached_page route.now }
{
    if route.parent {
        Page::ForwardingFailed
    } else {
        Page::ConnectFailed
    }
}

/// Dials by a route, sends a request, returns the answer to the client and hangs up.
pub fn dial_and_send<S: Source, D: Dialer, O: Sink>(
    alloc: Global,
    running: &mut Running<'_>,
    route: &Route,
    errand: Errand,
    client: &mut Feed<S>,
    client_out: &mut O,
    dialer: &mut D,
) -> Talked
    ensures talks { IsTrue client.old.source.tells → IsTrue (O.state client_out.old).tells → IsTrue (D.state dialer.old).tells
        → (page_due : page.Page → due.Due) (failed : Bool)
        → Does failed (Forward (ask_of running.old errand.asked page_due) route.now errand.message)
        (record { stream = bytes_behind client.old; behind = bytes_behind client.new })
        (D.state dialer.old) (D.state dialer.new) (O.state client_out.old).taken (O.state client_out.new).taken result }
    ensures read_cause { TalkReadCause client.old.source client.new.source result }
    ensures write_cause { TalkCause (O.state client_out.old) (O.state client_out.new) result }
    ensures page_cause { TalkPageCause (D.state dialer.old) (D.state dialer.new) result }
    ensures open { (O.state client_out.new).finished ≡ (O.state client_out.old).finished }
    ensures in_goes_on { SourceGoesOn client.old.source client.new.source }
    ensures out_goes_on { SinkGoesOn (O.state client_out.old) (O.state client_out.new) }
    ensures goes_on { DialerGoesOn (D.state dialer.old) (D.state dialer.new) }
    ensures same { running.new ≡ running.old }
{
    match dialer.dial(route.host.as_bytes(), route.port) {
        Ok((mut link_in, mut link_out)) => {
            let talked = talk_over(
                alloc,
                running,
                errand,
                client,
                &mut link_in,
                &mut link_out,
                client_out,
            );
            dialer.hang_up(link_in, link_out);
            talked
        }
        Err(DialFault::NoName) => Talked::Page(no_name_page(route)),
        Err(DialFault::NotReached) => Talked::Page(not_reached_page(route)),
        Err(DialFault::Mem) => Talked::Ended(broken(After::NoMemory)),
    }
}
