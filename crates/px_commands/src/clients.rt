// The one client of `pass`, served over a dialer.
ghost use Rattle.std.specs.Prelude.{◌≡◌, ◌∷◌, [], IfOk, codes, false, map, string_bytes, true};
ghost use Rattle.px_serve.specs.Histories.{looks_of};
ghost use Rattle.px_commands.specs.Clients.{ServesClient, ServesEnds, streams_as};

use crate::texts::tag_texts;
use px_base::{Clock, Dialer, List, Mem, Peer, Sink, Source, Text};
use px_config::Config;
use px_ends::{Ends, Joined, Outside};
use px_link_pool::{Look, Sees};
use px_notes::SessionEnd;
use px_pages::Pages;
use px_publish::{Configs, FixedConfig};
use px_serve::serve_cold;
use px_shared::{heard_is_enough, pools_hear_fronts, with_pool, without_pool};
use px_streams::Feed;
use px_ways::Way;
use std::alloc::Global;
use std::sync::Arc;
use std::thread::Threads;

/// The address of the one client of `pass`.
const CLIENT: &[u8] = b"127.0.0.1";

/// The one client of `pass`, and the one configuration at each look.
#[derive(Drop)]
pub struct PassClient {
    tags: List<Text>,
    peer: Peer,
    configs: FixedConfig<Config>,
    /// Whether its requests may share links.
    sharing: bool,
}

/// The client's input, its output and the clock of its session.
#[derive(Drop)]
pub struct Streams<S, O, T> {
    pub input: S,
    pub out: O,
    pub clock: T,
}

/// How a session ended, with its streams, and the dialer behind it, with every link hung up.
pub struct Ended<S, O, D, T> {
    pub end: SessionEnd,
    pub dialer: D,
    pub streams: Streams<S, O, T>,
}

/// How a session between ends ended, with the ends behind it.
struct EndedEnds<A: Outside> {
    end: SessionEnd,
    ends: Ends<A>,
}

/// The one configuration, at each look.
fn fixed_config(alloc: Global, loaded: Config) -> Result<FixedConfig<Config>, Mem>
    ensures view { IfOk result (λ configs. ⟦<FixedConfig<Config> as Configs>⟧.view configs ≡ loaded ∷ []) }
    ensures coming { IfOk result (λ configs. ⟦<FixedConfig<Config> as Configs>⟧.coming configs ≡ record { number = 0; config = loaded } ∷ []) }
{
    Ok(FixedConfig::new(Arc::new(alloc, loaded)?))
}

/// The client with these tags. Whether its requests share links the configuration says.
pub fn made_client(alloc: Global, loaded: Config, tags: &[String]) -> Result<PassClient, Mem>
    ensures tags { IfOk result (λ c. c.tags ≡ map string_bytes tags.now) }
    ensures peer { IfOk result (λ c. c.peer.address ≡ codes "127.0.0.1") }
    ensures view { IfOk result (λ c. ⟦<FixedConfig<Config> as Configs>⟧.view c.configs ≡ loaded ∷ []) }
    ensures coming { IfOk result (λ c. ⟦<FixedConfig<Config> as Configs>⟧.coming c.configs ≡ record { number = 0; config = loaded } ∷ []) }
    ensures sharing { IfOk result (λ c. c.sharing ≡ loaded.settings.sharing) }
{
    let sharing = loaded.settings.sharing;
    let configs = fixed_config(alloc, loaded)?;
    let tags = tag_texts(alloc, tags)?;
    let peer = Peer {
        address: Text::from_bytes(alloc, CLIENT)?,
    };
    Ok(PassClient {
        tags,
        peer,
        configs,
        sharing,
    })
}

/// Serves the client over a dialer that has dialled nothing: where the configuration says so, over a pool of links of that dialer,
/// and else each dial is a new link.
pub fn serve_client<R: Threads + Sync, S: Source, O: Sink, D: Dialer, T: Clock>(
    alloc: Global,
    way: &Way<'_, R>,
    client: PassClient,
    dialer: D,
    streams: Streams<S, O, T>,
) -> Ended<S, O, D, T>
where
    Look: Sees<D::In>,
    requires peer { client.peer.address ≡ codes "127.0.0.1" }
    requires undialled { (D.state dialer).dials ≡ [] }
    ensures serves { ServesClient (record { ins = D.In.state; outs = D.Out.state }) client.sharing client.tags
        (looks_of ⟦<FixedConfig<Config> as Configs>⟧.tells ⟦<FixedConfig<Config> as Configs>⟧.view ⟦<FixedConfig<Config> as Configs>⟧.pair ⟦<FixedConfig<Config> as Configs>⟧.coming client.configs)
        (streams_as S.state O.state T.state streams) (streams_as S.state O.state T.state result.streams) (D.state dialer) (D.state result.dialer) result.end }
{
    let PassClient {
        tags,
        peer,
        configs,
        sharing,
    } = client;
    let Streams { input, out, clock } = streams;
    let ends: Ends<Joined<S, O, D, T>> = Ends::new(alloc, input, out, dialer, clock, peer);
    let pages = Pages::new(tags);
    let EndedEnds { end, ends } = serve_ends(alloc, way, sharing, configs, pages, ends);
    let (dialer, streams) = opened(ends);
    Ended {
        end,
        dialer,
        streams,
    }
}

/// The dialer and the streams of ends.
fn opened<S: Source, O: Sink, D: Dialer, T: Clock>(
    ends: Ends<Joined<S, O, D, T>>,
) -> (D, Streams<S, O, T>)
    ensures dialer { D.state result.0 ≡ ends.dialer }
    ensures streams { streams_as S.state O.state T.state result.1 ≡ record { input = ends.client.source; out = ends.client_out; clock = ends.clock } }
{
    let Ends {
        client,
        client_out,
        dialer,
        clock,
        peer: _,
    } = ends;
    let Feed { source, ahead: _ } = client;
    let streams = Streams {
        input: source,
        out: client_out,
        clock,
    };
    (dialer, streams)
}

/// Serves a client between ends whose dialer has dialled nothing, by whether its requests may share links.
fn serve_ends<R: Threads + Sync, A: Outside>(
    alloc: Global,
    way: &Way<'_, R>,
    sharing: bool,
    configs: FixedConfig<Config>,
    pages: Pages,
    ends: Ends<A>,
) -> EndedEnds<A>
where
    Look: Sees<<A::Dial as Dialer>::In>,
    requires undialled { ends.dialer.dials ≡ [] }
    ensures serves { ServesEnds (record { ins = A.Dial.In.state; outs = A.Dial.Out.state }) sharing pages.tags
        (looks_of ⟦<FixedConfig<Config> as Configs>⟧.tells ⟦<FixedConfig<Config> as Configs>⟧.view ⟦<FixedConfig<Config> as Configs>⟧.pair ⟦<FixedConfig<Config> as Configs>⟧.coming configs)
        ends result.ends result.end }
{
    if sharing {
        share_links(alloc, way, configs, pages, ends)
    } else {
        take_new_links(alloc, way, configs, pages, ends)
    }
}

/// Serves a client over a pool of links of its ends' dialer.
fn share_links<R: Threads + Sync, A: Outside>(
    alloc: Global,
    way: &Way<'_, R>,
    configs: FixedConfig<Config>,
    pages: Pages,
    ends: Ends<A>,
) -> EndedEnds<A>
where
    Look: Sees<<A::Dial as Dialer>::In>,
    requires undialled { ends.dialer.dials ≡ [] }
    ensures serves { ServesEnds (record { ins = A.Dial.In.state; outs = A.Dial.Out.state }) true pages.tags
        (looks_of ⟦<FixedConfig<Config> as Configs>⟧.tells ⟦<FixedConfig<Config> as Configs>⟧.view ⟦<FixedConfig<Config> as Configs>⟧.pair ⟦<FixedConfig<Config> as Configs>⟧.coming configs)
        ends result.ends result.end }
{
    heard_is_enough();
    pools_hear_fronts::<<A::Dial as Dialer>::In, <A::Dial as Dialer>::Out>();
    let mut configs = configs;
    let mut pages = pages;
    let mut pooled = with_pool(alloc, ends);
    let session = serve_cold(alloc, way, &mut configs, &mut pages, &mut pooled);
    let (ends, _wanting) = without_pool(pooled);
    EndedEnds {
        end: session.end,
        ends,
    }
}

/// Serves a client between ends, each dial a new link.
fn take_new_links<R: Threads + Sync, A: Outside>(
    alloc: Global,
    way: &Way<'_, R>,
    configs: FixedConfig<Config>,
    pages: Pages,
    ends: Ends<A>,
) -> EndedEnds<A>
    ensures serves { ServesEnds (record { ins = A.Dial.In.state; outs = A.Dial.Out.state }) false pages.tags
        (looks_of ⟦<FixedConfig<Config> as Configs>⟧.tells ⟦<FixedConfig<Config> as Configs>⟧.view ⟦<FixedConfig<Config> as Configs>⟧.pair ⟦<FixedConfig<Config> as Configs>⟧.coming configs)
        ends result.ends result.end }
{
    let mut configs = configs;
    let mut pages = pages;
    let mut ends = ends;
    let session = serve_cold(alloc, way, &mut configs, &mut pages, &mut ends);
    EndedEnds {
        end: session.end,
        ends,
    }
}
