// Where a request is sent.
ghost use Rattle.std.specs.Prelude.{◌≡◌, ◌<◌, IfOk, Some, false, map, option_map, true};
ghost use Rattle.px_patterns.specs.Patterns.{url_matches};
ghost use Rattle.px_actions.specs.Hops.{seen_hop};
ghost use Rattle.px_decide.specs.Lines.{forward_line_of, next_of};
ghost use Rattle.px_decide.specs.Routes.{last_line, route_by, route_by_line, route_by_lines, route_of, through};
ghost use Rattle.px_decide.specs.Servers.{kept_server};

use crate::forwards::{ForwardLine, ForwardNext, Forwards};
use crate::routes::Route;
use crate::servers::{KeptServer, dial_name};
use px_actions::{ActionSet, Hop, Kind, override_hop};
use px_base::{Mem, Steps, Text};
use px_patterns::Url;
use std::alloc::Global;
use std::marker::Brand;
use std::sync::ledger::{Blank, Ledger};

/// The route of a request for this URL: that of `forward-override` where it is set, else that of the last forward line whose
/// pattern matches, else the URL's own host and port (Privoxy's manual, "The Main Configuration File", forward). A line with a
/// SOCKS server gives as host the dial name of that server and of the host behind it, which is the line's parent or the URL's
/// host, and that host's port.
#[tactic(auto, unfolding(crate::specs::Routes::route_of))]
pub fn route(alloc: Global, url: &Url, set: &ActionSet, forwards: &Forwards) -> Result<Route, Mem>
    ensures { IfOk result (λ route. route ≡ route_of url.now set.now forwards.now) }
{
    match set.value(Kind::ForwardOverride) {
        Some(value) => route_by_hop(alloc, url, override_hop(value)),
        None => route_by_lines(alloc, url, forwards.lines()),
    }
}

fn route_by_hop(alloc: Global, url: &Url, hop: Hop) -> Result<Route, Mem>
    ensures { IfOk result (λ route. route ≡ route_by url.now (seen_hop hop.entry)) }
{
    match hop {
        Hop::Direct => origin(alloc, url),
        Hop::Parent { host, port } => parent(alloc, host, port),
    }
}

fn route_by_lines(alloc: Global, url: &Url, lines: &[ForwardLine]) -> Result<Route, Mem>
    ensures { IfOk result (λ route. route ≡ route_by_lines url.now (map forward_line_of lines.now)) }
{
    counted_route::<Brand>(alloc, url, lines, Blank::new(1))
}

/// The same, where L is the name of the blank.
fn counted_route<L: Ledger>(
    alloc: Global,
    url: &Url,
    lines: &[ForwardLine],
    blank: Blank,
) -> Result<Route, Mem>
    requires name { blank.name ≡ L.name }
    requires parts { blank.parts ≡ L.parts }
    requires some { 0 < L.parts }
    ensures { IfOk result (λ route. route ≡ route_by_lines url.now (map forward_line_of lines.now)) }
{
    match last_line::<L>(alloc, url, lines, blank)? {
        Some(line) => route_by_line(alloc, url, line),
        None => origin(alloc, url),
    }
}

fn route_by_line(alloc: Global, url: &Url, line: &ForwardLine) -> Result<Route, Mem>
    ensures { IfOk result (λ route. route ≡ route_by_line url.now (forward_line_of line.now)) }
{
    let route = route_by_next(alloc, url, &line.next)?;
    match &line.server {
        Some(server) => through(alloc, server, route),
        None => Ok(route),
    }
}

/// The same route through a SOCKS server.
fn through(alloc: Global, server: &KeptServer, route: Route) -> Result<Route, Mem>
    ensures { IfOk result (λ far. far ≡ through (Some (kept_server server.now)) route) }
{
    let Route { host, port, parent } = route;
    Ok(Route {
        host: dial_name(alloc, server, host.as_bytes())?,
        port,
        parent,
    })
}

fn route_by_next(alloc: Global, url: &Url, next: &ForwardNext) -> Result<Route, Mem>
    ensures { IfOk result (λ route. route ≡ route_by url.now (next_of next.now)) }
{
    match next {
        ForwardNext::Direct => origin(alloc, url),
        ForwardNext::Parent { host, port } => parent(alloc, host.as_bytes(), *port),
    }
}

/// The last line whose pattern matches.
fn last_line<'l, L: Ledger>(
    alloc: Global,
    url: &Url,
    lines: &'l [ForwardLine],
    blank: Blank,
) -> Result<Option<&'l ForwardLine>, Mem>
    requires name { blank.name ≡ L.name }
    requires parts { blank.parts ≡ L.parts }
    requires some { 0 < L.parts }
    ensures { IfOk result (λ line. option_map (λ l. forward_line_of l.now) line ≡ last_line url.now (map forward_line_of lines.now)) }
{
    let mut steps: Steps<L> = Steps::begin(blank);
    let mut at = lines.len();
    'lines: while at > 0 {
        at -= 1;
        if lines[at].pattern.matches(alloc, url, &mut steps)? {
            return Ok(Some(&lines[at]));
        }
    }
    Ok(None)
}

/// The route to the URL's own host and port.
fn origin(alloc: Global, url: &Url) -> Result<Route, Mem>
    ensures { IfOk result (λ route. route ≡ record { host = url.now.host; port = url.now.port; parent = false }) }
{
    Ok(Route {
        host: Text::from_bytes(alloc, url.host.as_bytes())?,
        port: url.port,
        parent: false,
    })
}

fn parent(alloc: Global, host: &[u8], port: u16) -> Result<Route, Mem>
    ensures { IfOk result (λ route. route ≡ record { host = host.now; port = port; parent = true }) }
{
    Ok(Route {
        host: Text::from_bytes(alloc, host)?,
        port,
        parent: true,
    })
}
