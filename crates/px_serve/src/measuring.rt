// One exchange, of which what is returned is measured where a log wants that.
ghost use Rattle.std.specs.Prelude.{◌≡◌, Some, None, if◌then◌else◌};
ghost use Rattle.px_metered.specs.Measured.{IsMeasured};
ghost use Rattle.px_judging.specs.Judging.{SpeaksOfNoDial};
ghost use Rattle.px_serve.specs.Answering.{Exchanges, none_returned};

use px_base::{Dialer, Sink, Source};
use px_config::Running;
use px_exchange::exchange;
use px_judging::Judgement;
use px_metered::{Began, Metered, Tally};
use px_notes::Conclusion;
use px_streams::Feed;
use px_ways::Way;
use std::alloc::Global;
use std::marker::Brand;
use std::thread::Threads;

/// How an exchange was concluded, and what was returned of it, if that was measured.
#[derive(Clone, Copy, Debug, PartialEq, Eq)]
pub struct Answered {
    pub concluded: Conclusion,
    pub returned: Option<Tally>,
}

impl Answered {
    /// An exchange of which nothing was returned.
    pub fn nothing(concluded: Conclusion, measured: bool) -> Answered
        ensures { result ≡ record { concluded = concluded; returned = if measured then Some none_returned else None } }
    {
        Answered {
            concluded,
            returned: if measured {
                Some(Tally {
                    status: None,
                    body: 0,
                })
            } else {
                None
            },
        }
    }
}

/// One exchange, whose client's sink is given back.
fn exchange_through<'a, N: Began + Send, R: Threads + Sync, S: Source, O: Sink, D: Dialer>(
    alloc: Global,
    way: &Way<'_, R>,
    judgement: Judgement,
    running: &mut Running<'_>,
    client: &mut Feed<S>,
    client_out: &'a mut O,
    dialer: &mut D,
    measured: bool,
) -> (Answered, &'a mut O)
    requires quiet { SpeaksOfNoDial judgement }
    requires name { client_out.ghost_name ≡ N.name }
    requires before { (O.state client_out.old).taken ≡ N.before }
    requires on { measured ≡ N.on }
    ensures sink { result.1.ghost_name ≡ client_out.entry.ghost_name }
    ensures exchanges { Exchanges running.old judgement client.old client.new (O.state client_out.old) (O.state result.1.now) (D.state dialer.old) (D.state dialer.new) result.0.concluded }
    ensures measured { IsMeasured N.on N.before (O.state result.1.now) result.0.returned }
    ensures same { running.new ≡ running.old }
{
    let mut metered = Metered::<'a, N, O>::new(client_out, measured);
    let concluded = exchange(alloc, way, judgement, running, client, &mut metered, dialer);
    let (returned, sink) = metered.into_parts();
    let answered = Answered {
        concluded,
        returned,
    };
    (answered, sink)
}

/// One exchange, of which what is returned is measured or not.
pub fn exchange_measured<R: Threads + Sync, S: Source, O: Sink, D: Dialer>(
    alloc: Global,
    way: &Way<'_, R>,
    judgement: Judgement,
    running: &mut Running<'_>,
    client: &mut Feed<S>,
    client_out: &mut O,
    dialer: &mut D,
    measured: bool,
) -> Answered
    requires quiet { SpeaksOfNoDial judgement }
    ensures exchanges { Exchanges running.old judgement client.old client.new (O.state client_out.old) (O.state client_out.new) (D.state dialer.old) (D.state dialer.new) result.concluded }
    ensures measured { IsMeasured measured (O.state client_out.old).taken (O.state client_out.new) result.returned }
    ensures same { running.new ≡ running.old }
{
    let (answered, _sink) = exchange_through::<Brand, R, S, O, D>(
        alloc, way, judgement, running, client, client_out, dialer, measured,
    );
    answered
}
