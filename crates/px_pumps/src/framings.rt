// What the answer's own head settles, by a configuration and by what was asked.
ghost use Rattle.std.specs.Prelude.{◌≡◌, ◌++◌, ◌==◌, ◌&&◌, codes, drop, length, not, IfOk, OnOk};
ghost use Rattle.px_headers.specs.Kinds.{is_text};
ghost use Rattle.px_merge.specs.declared.sides.Side.TheVariants as side;
ghost use Rattle.px_taggers.specs.Tagging.{TagsLike};
ghost use Rattle.px_pumps.specs.Asking.{as_version_1_1, framed_by, framed_answer, received_lines, response_set, returned_lines, terms_of};

use px_actions::{ActionSet, Kind};
use px_answers::{BodyPlan, Framed, HeaderLines, Terms};
use px_base::{List, Mem, Text};
use px_config::Running;
use px_fields::Field;
use px_framing::BodyRule;
use px_head::ResponseHead;
use px_headers::{HeaderRules, ServerOut, is_text, server_headers};
use px_merge::Side;
use px_notes::Asked;
use px_subst::Vars;
use px_taggers::{TaggerLines, has_taggers, tag_headers_with};
use std::alloc::Global;

/// The version of a returned head.
const VERSION: &[u8] = b"HTTP/1.1";

/// What the answer's own head settles, and what the words of substitution jobs stand for.
#[derive(Drop)]
pub struct Settled {
    pub framed: Framed,
    pub vars: Vars,
}

/// The lines of a head as they were received: the status line, and each field's.
fn received_lines(alloc: Global, head: &ResponseHead) -> Result<List<Text>, Mem>
    ensures { IfOk result (λ lines. lines ≡ received_lines head.now) }
{
    let mut lines = List::new(alloc);
    lines.add(head.first_line(alloc)?)?;
    for field in head.fields.as_slice() {
        lines.add(field.line(alloc)?)?;
    }
    Ok(lines)
}

/// The lines of a head as far as taggers of the set need them: none where there are none.
fn lines_for(alloc: Global, head: &ResponseHead, set: &ActionSet) -> Result<List<Text>, Mem>
    ensures { IfOk result (λ lines. TagsLike set.now side.Response lines (received_lines head.now)) }
{
    if has_taggers(set, Side::Response) {
        received_lines(alloc, head)
    } else {
        Ok(List::new(alloc))
    }
}

/// The action set of an answer, from the request's set and tags.
#[tactic(auto, unfolding(crate::specs::Asking::response_set))]
fn response_set(
    alloc: Global,
    running: &mut Running<'_>,
    set: ActionSet,
    tags: List<Text>,
    head: &ResponseHead,
    vars: &Vars,
) -> Result<ActionSet, Mem>
    ensures value { IfOk result (λ answer. answer ≡ response_set running.old set tags vars.now head.now) }
    ensures same { running.new ≡ running.old }
{
    if !running.config().settings.toggle {
        return Ok(set);
    }
    let mut set = set;
    let mut tags = tags;
    let lines = lines_for(alloc, head, &set)?;
    tag_headers_with(
        alloc,
        &mut running.sections,
        &mut running.filters,
        &mut set,
        &mut tags,
        &TaggerLines {
            lines: lines.as_slice(),
            side: Side::Response,
            vars,
        },
    )?;
    Ok(set)
}

/// Copies of texts.
fn copy_texts(alloc: Global, texts: &[Text]) -> Result<List<Text>, Mem>
    ensures { IfOk result (λ copies. copies ≡ texts.now) }
{
    let mut copies = List::with_capacity(alloc, texts.len())?;
    for text in texts {
        copies.add(Text::from_bytes(alloc, text.as_bytes())?)?;
    }
    Ok(copies)
}

/// A copy of a status line with its version written as HTTP/1.1.
fn copy_as_version_1_1(alloc: Global, line: &[u8]) -> Result<Text, Mem>
    ensures { IfOk result (λ text. text ≡ as_version_1_1 line.now) }
{
    let mut text = Text::with_capacity(alloc, line.len())?;
    text.push_all(VERSION)?;
    text.push_all(&line[line.len().min(8)..])?;
    Ok(text)
}

/// A status line with its version written as HTTP/1.1. One that begins so is moved.
fn as_version_1_1(alloc: Global, line: Text) -> Result<Text, Mem>
    ensures { IfOk result (λ text. text ≡ as_version_1_1 line) }
{
    if line.as_bytes().starts_with(VERSION) {
        Ok(line)
    } else {
        copy_as_version_1_1(alloc, line.as_bytes())
    }
}

/// What the header actions made of a head, with its version written as HTTP/1.1.
fn returned_lines(alloc: Global, out: ServerOut) -> Result<HeaderLines, Mem>
    ensures { IfOk result (λ lines. lines ≡ returned_lines out) }
{
    let ServerOut { first_line, fields } = out;
    Ok(HeaderLines {
        first_line: as_version_1_1(alloc, first_line)?,
        fields,
    })
}

/// Whether an answer with these fields is a text to which a filter is applied. Without a filter its content type isn't looked at.
fn is_filtered_text(filters: &[Text], fields: &[Field], set: &ActionSet) -> bool
    ensures { result ≡ (not (length filters.now == 0) && is_text set.now fields.now) }
{
    !filters.is_empty() && is_text(fields, set)
}

/// What a head settles.
#[tactic(auto, unfolding(crate::specs::Asking::framed_answer))]
pub fn settle(
    alloc: Global,
    running: &mut Running<'_>,
    asked: Asked,
    head: ResponseHead,
    rule: BodyRule,
) -> Result<Settled, Mem>
    ensures framed { IfOk result (λ settled. settled.framed ≡ framed_answer running.old asked head rule) }
    ensures vars { IfOk result (λ settled. settled.vars ≡ asked.vars) }
    ensures same { running.new ≡ running.old }
{
    let Asked {
        method: _,
        minor,
        keep,
        set,
        tags,
        vars,
        moment,
    } = asked;
    let config = running.config();
    let set = response_set(alloc, running, set, tags, &head, &vars)?;
    let filters = copy_texts(alloc, set.values(Kind::Filter))?;
    let terms = Terms {
        minor,
        keep,
        text: is_filtered_text(filters.as_slice(), head.fields.as_slice(), &set),
        filters,
        limit: config.settings.buffer_limit,
    };
    let plan = BodyPlan::new(alloc, &config.filters, &head, rule, terms)?;
    let mut head = head;
    let out = server_headers(
        alloc,
        &mut head,
        &HeaderRules {
            set: &set,
            filters: &config.filters,
            vars: &vars,
        },
        &mut running.filters,
        moment,
    )?;
    let lines = returned_lines(alloc, out)?;
    Ok(Settled {
        framed: plan.behind(lines),
        vars,
    })
}
