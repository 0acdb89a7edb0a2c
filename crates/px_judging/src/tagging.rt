// What is set for a request, and its tags.
ghost use Rattle.std.specs.Prelude.{◌≡◌, ◌<◌, IfOk, map};
ghost use Rattle.px_fields.specs.FieldLines.{field_line};
ghost use Rattle.px_merge.specs.Merging.{url_actions};
ghost use Rattle.px_merge.specs.declared.sides.Side.TheVariants as side;
ghost use Rattle.px_taggers.specs.Tagging.{TagsLike};
ghost use Rattle.px_judging.specs.Requests.{tagged_request, head_lines, vars_of};

use crate::requests::{Request, RequestTags};
use px_actions::ActionSet;
use px_base::{List, Mem, Peer, Steps, Text};
use px_config::Running;
use px_head::RequestHead;
use px_merge::{Side, WarmSections};
use px_patterns::Url;
use px_subst::Vars;
use px_taggers::{TaggerLines, has_taggers, tag_headers_with};
use std::alloc::Global;
use std::marker::Brand;
use std::sync::ledger::{Blank, Ledger};

/// The values of a job's words.
pub fn vars_of(alloc: Global, peer: &Peer, url: &Url) -> Result<Vars, Mem>
    ensures { IfOk result (λ vars. vars ≡ vars_of peer.now.address url.now) }
{
    Ok(Vars {
        host: Text::from_bytes(alloc, url.host.as_bytes())?,
        origin: Text::from_bytes(alloc, peer.address.as_bytes())?,
        path: Text::from_bytes(alloc, url.path.as_bytes())?,
        url: url.print(alloc)?,
    })
}

/// The lines of a head as taggers see them: as received.
fn lines_of(alloc: Global, head: &RequestHead) -> Result<List<Text>, Mem>
    ensures { IfOk result (λ lines. lines ≡ head_lines head.now) }
{
    let fields = head.fields.as_slice();
    let mut lines = List::with_capacity(alloc, fields.len().saturating_add(1))?;
    lines.add(head.first_line(alloc)?)?;
    for field in fields {
        lines.add(field.line(alloc)?)?;
    }
    Ok(lines)
}

/// The lines of a head as far as taggers of the set need them: none where there are none.
fn lines_for(alloc: Global, head: &RequestHead, set: &ActionSet) -> Result<List<Text>, Mem>
    ensures { IfOk result (λ lines. TagsLike set.now side.Request lines (head_lines head.now)) }
{
    if has_taggers(set, Side::Request) {
        lines_of(alloc, head)
    } else {
        Ok(List::new(alloc))
    }
}

/// What lists of hosts and sections set for a URL, where L is the name of the blank.
fn set_of<L: Ledger>(
    alloc: Global,
    sections: &mut WarmSections<'_>,
    url: &Url,
    tags: &[Text],
    blank: Blank,
) -> Result<ActionSet, Mem>
    requires name { blank.name ≡ L.name }
    requires parts { blank.parts ≡ L.parts }
    requires some { 0 < L.parts }
    ensures value { IfOk result (λ set. set ≡ url_actions sections.old url.now tags.now) }
    ensures same { sections.new ≡ sections.old }
{
    let mut steps: Steps<L> = Steps::begin(blank);
    sections.url_actions(alloc, url, tags, &mut steps)
}

/// What lists of hosts and sections set for a URL and the tags of a client.
fn actions_of(
    alloc: Global,
    sections: &mut WarmSections<'_>,
    url: &Url,
    tags: &[Text],
) -> Result<ActionSet, Mem>
    ensures value { IfOk result (λ set. set ≡ url_actions sections.old url.now tags.now) }
    ensures same { sections.new ≡ sections.old }
{
    set_of::<Brand>(alloc, sections, url, tags, Blank::new(1))
}

/// What is set for a request, and its tags: those of the URL and of the client's tags, and then by the taggers.
#[tactic(auto, unfolding(crate::specs::Requests::tagged_request))]
pub fn tag_request(
    alloc: Global,
    running: &mut Running<'_>,
    client_tags: &[Text],
    request: &Request,
) -> Result<RequestTags, Mem>
    ensures value { IfOk result (λ t. t ≡ tagged_request running.old client_tags.now request.now) }
    ensures same { running.new ≡ running.old }
{
    let mut tags = List::new(alloc);
    if !running.config().settings.toggle {
        let set = ActionSet::empty(alloc);
        return Ok(RequestTags { set, tags });
    }
    let mut set = actions_of(alloc, &mut running.sections, &request.url, client_tags)?;
    let lines = lines_for(alloc, &request.head, &set)?;
    tag_headers_with(
        alloc,
        &mut running.sections,
        &mut running.filters,
        &mut set,
        &mut tags,
        &TaggerLines {
            lines: lines.as_slice(),
            side: Side::Request,
            vars: &request.vars,
        },
    )?;
    Ok(RequestTags { set, tags })
}
