// One exchange: a request, and all that follows from it.
ghost use Rattle.std.specs.Prelude.{◌≡◌, ◌≢◌, ◌⊎◌, IsTrue, Bool};
ghost use Rattle.px_base.specs.Dials.{DialerGoesOn};
ghost use Rattle.px_base.specs.Sinks.{SinkGoesOn};
ghost use Rattle.px_base.specs.Sources.{SourceGoesOn};
ghost use Rattle.px_streams.specs.Feeds.{bytes_behind};
ghost use Rattle.px_judging.specs.Judging.{SpeaksOfNoDial};
ghost use Rattle.px_pumps.specs.Returning.{IsAnswerEnding, WriteCause as SinkCause};
ghost use Rattle.px_exchange.specs.Causes.{EndingCause, EndsByJudgement, ClientReadCause, ClientStaysOpen, ClientWriteCause, IsPageOr, IsTunnelEnding};
ghost use Rattle.px_exchange.specs.Exchange.{Answers, Does, WhereFailed};
ghost use Rattle.px_exchange.specs.Replies.{page_due};
ghost use Rattle.px_exchange.specs.Rows.{task_of};
ghost use Rattle.px_exchange.specs.Standing.{ReturnsDue};

use crate::dialling::dial_and_send;
use crate::replies::{page_reply, return_reply};
use crate::tunnels::dial_tunnel;
use px_base::{Dialer, Mem, Sink, Source};
use px_config::{Config, Running};
use px_decide::Route;
use px_judging::{Judgement, Plan, TunnelPlan};
use px_notes::{After, Conclusion, Ending, broken};
use px_patterns::Url;
use px_pumps::Talked;
use px_streams::Feed;
use px_templates::Page;
use px_ways::Way;
use std::alloc::Global;
use std::thread::Threads;

/// Returns the page that is due in place of an answer.
fn return_page<O: Sink>(
    alloc: Global,
    config: &Config,
    url: &Url,
    route: &Route,
    bodiless: bool,
    page: Page,
    client_out: &mut O,
) -> Conclusion
    ensures returns { IsTrue (O.state client_out.old).tells
        → ReturnsDue (page_due config.now url.now route.now bodiless page) (O.state client_out.old).taken (O.state client_out.new).taken result }
    ensures cause { SinkCause (O.state client_out.old) (O.state client_out.new) result.after }
    ensures unread { result.after ≢ After.ReadFailed }
    ensures page { (p : Page) → result.ending ≡ Ending.Page p → p ≡ page }
    ensures ending { (result.ending ≡ Ending.Page page) ⊎ (result.ending ≡ Ending.Broken) }
    ensures open { (O.state client_out.new).finished ≡ (O.state client_out.old).finished }
    ensures goes_on { SinkGoesOn (O.state client_out.old) (O.state client_out.new) }
{
    match page_reply(alloc, url, route, bodiless, page) {
        Ok(reply) => return_reply(alloc, config, &reply, client_out),
        Err(Mem) => broken(After::NoMemory),
    }
}

/// Sends a request on, and returns what is due.
fn forward<S: Source, O: Sink, D: Dialer>(
    alloc: Global,
    running: &mut Running<'_>,
    plan: Plan,
    client: &mut Feed<S>,
    client_out: &mut O,
    dialer: &mut D,
) -> Conclusion
    ensures forwards { IsTrue client.old.source.tells → IsTrue (O.state client_out.old).tells → IsTrue (D.state dialer.old).tells
        → (failed : Bool) → Does failed (task_of running.old (Judgement.Forward plan))
        (record { stream = bytes_behind client.old; behind = bytes_behind client.new })
        (D.state dialer.old) (D.state dialer.new) (O.state client_out.old).taken (O.state client_out.new).taken (Talked.Ended result) }
    ensures read_cause { ClientReadCause client.old.source client.new.source result.after }
    ensures write_cause { SinkCause (O.state client_out.old) (O.state client_out.new) result.after }
    ensures page_cause { EndingCause (D.state dialer.old) (D.state dialer.new) result.ending }
    ensures ending { IsPageOr IsAnswerEnding result.ending }
    ensures open { (O.state client_out.new).finished ≡ (O.state client_out.old).finished }
    ensures in_goes_on { SourceGoesOn client.old.source client.new.source }
    ensures out_goes_on { SinkGoesOn (O.state client_out.old) (O.state client_out.new) }
    ensures goes_on { DialerGoesOn (D.state dialer.old) (D.state dialer.new) }
    ensures same { running.new ≡ running.old }
{
    let config = running.config();
    let Plan {
        url,
        route,
        errand,
        bodiless,
    } = plan;
    match dial_and_send(alloc, running, &route, errand, client, client_out, dialer) {
        Talked::Page(page) => {
            return_page(alloc, config, &url, &route, bodiless, page, client_out)
        }
        Talked::Ended(conclusion) => conclusion,
    }
}

/// Opens a tunnel and carries it, or returns the page that is due in place of it.
fn open_tunnel<R: Threads + Sync, S: Source, O: Sink, D: Dialer>(
    alloc: Global,
    way: &Way<'_, R>,
    config: &Config,
    plan: &TunnelPlan,
    client: &mut Feed<S>,
    client_out: &mut O,
    dialer: &mut D,
) -> Conclusion
    ensures tunnels { IsTrue client.old.source.tells → IsTrue (O.state client_out.old).tells → IsTrue (D.state dialer.old).tells
        → WhereFailed (O.state client_out.old) (O.state client_out.new) (λ failed. Does failed (task_of config.now (Judgement.Tunnel plan.now))
        (record { stream = bytes_behind client.old; behind = bytes_behind client.new })
        (D.state dialer.old) (D.state dialer.new) (O.state client_out.old).taken (O.state client_out.new).taken (Talked.Ended result)) }
    ensures read_cause { ClientReadCause client.old.source client.new.source result.after }
    ensures write_cause { ClientWriteCause (O.state client_out.old) (O.state client_out.new) result }
    ensures page_cause { EndingCause (D.state dialer.old) (D.state dialer.new) result.ending }
    ensures ending { IsPageOr IsTunnelEnding result.ending }
    ensures open { ClientStaysOpen (O.state client_out.old) (O.state client_out.new) result }
    ensures in_goes_on { SourceGoesOn client.old.source client.new.source }
    ensures out_goes_on { SinkGoesOn (O.state client_out.old) (O.state client_out.new) }
    ensures goes_on { DialerGoesOn (D.state dialer.old) (D.state dialer.new) }
{
    match dial_tunnel(way, plan, client, client_out, dialer) {
        Talked::Page(page) => {
            return_page(
                alloc,
                config,
                &plan.url,
                &plan.route,
                false,
                page,
                client_out,
            )
        }
        Talked::Ended(conclusion) => conclusion,
    }
}

/// Does what was judged for one request: answers it here, or dials, sends it on, and returns what is due. `client` is what comes behind
/// the request's head. What is returned doesn't depend on what was searched before.
pub fn exchange<R: Threads + Sync, S: Source, O: Sink, D: Dialer>(
    alloc: Global,
    way: &Way<'_, R>,
    judgement: Judgement,
    running: &mut Running<'_>,
    client: &mut Feed<S>,
    client_out: &mut O,
    dialer: &mut D,
) -> Conclusion
    requires quiet { SpeaksOfNoDial judgement }
    ensures answers { IsTrue client.old.source.tells → IsTrue (O.state client_out.old).tells → IsTrue (D.state dialer.old).tells
        → Answers running.old judgement (record { stream = bytes_behind client.old; behind = bytes_behind client.new })
        (D.state dialer.old) (D.state dialer.new) (O.state client_out.old).taken (O.state client_out.new).taken result }
    ensures counted { IsTrue client.old.source.tells → IsTrue (O.state client_out.old).tells → IsTrue (D.state dialer.old).tells
        → WhereFailed (O.state client_out.old) (O.state client_out.new) (λ failed. Does failed (task_of running.old judgement)
        (record { stream = bytes_behind client.old; behind = bytes_behind client.new })
        (D.state dialer.old) (D.state dialer.new) (O.state client_out.old).taken (O.state client_out.new).taken (Talked.Ended result)) }
    ensures read_cause { ClientReadCause client.old.source client.new.source result.after }
    ensures write_cause { ClientWriteCause (O.state client_out.old) (O.state client_out.new) result }
    ensures page_cause { EndingCause (D.state dialer.old) (D.state dialer.new) result.ending }
    ensures ending { EndsByJudgement judgement result.ending }
    ensures open { ClientStaysOpen (O.state client_out.old) (O.state client_out.new) result }
    ensures in_goes_on { SourceGoesOn client.old.source client.new.source }
    ensures out_goes_on { SinkGoesOn (O.state client_out.old) (O.state client_out.new) }
    ensures goes_on { DialerGoesOn (D.state dialer.old) (D.state dialer.new) }
    ensures same { running.new ≡ running.old }
{
    let config = running.config();
    match judgement {
        Judgement::Local(reply) => return_reply(alloc, config, &reply, client_out),
        Judgement::Tunnel(plan) => {
            open_tunnel(alloc, way, config, &plan, client, client_out, dialer)
        }
        Judgement::Forward(plan) => forward(alloc, running, plan, client, client_out, dialer),
    }
}
