// The filtered form of a whole body.
ghost use Rattle.std.specs.Prelude.{◌≡◌, ◌++◌, IfOk, OnOk, OnErr};
ghost use Rattle.px_framing.specs.Reading.{added};
ghost use Rattle.px_answers.specs.Finished.{filtered, allowed_names, run_content_filters, run_one};

use crate::forms::Framed;
use crate::heads::push_filtered_head;
use px_base::{List, Mem, Text};
use px_filter_files::{FilterKind, WarmFilters};
use px_subst::Vars;
use std::alloc::Global;

/// What a named content filter makes of a text; a name that no filter has does nothing.
fn run_one(
    alloc: Global,
    warm: &mut WarmFilters<'_>,
    vars: &Vars,
    name: &[u8],
    text: Text,
) -> Result<Text, Mem>
    ensures made { IfOk result (λ made. made ≡ run_one (record { filters = warm.old; vars = vars.now }) text name.now) }
    ensures same { warm.new ≡ warm.old }
{
    match warm.try_run(alloc, FilterKind::Content, name, text.as_bytes(), vars)? {
        Some(outcome) => Ok(outcome.text),
        None => Ok(text),
    }
}

/// What the named content filters make of a text, in their order.
#[tactic(auto, unfolding(crate::specs::Finished::run_content_filters))]
fn run_named(
    alloc: Global,
    warm: &mut WarmFilters<'_>,
    vars: &Vars,
    names: &[Text],
    text: Text,
) -> Result<Text, Mem>
    ensures made { IfOk result (λ made. made ≡ run_content_filters (record { filters = warm.old; vars = vars.now }) names.now text) }
    ensures same { warm.new ≡ warm.old }
{
    let mut text = text;
    for name in names {
        text = run_one(alloc, warm, vars, name.as_bytes(), text)?;
    }
    Ok(text)
}

fn names_of(names: &Option<List<Text>>) -> &[Text]
    ensures { result.now ≡ allowed_names names.now }
{
    match names {
        None => &[],
        Some(names) => names.as_slice(),
    }
}

/// Adds the filtered form of a whole body with that data.
pub fn push_filtered(
    alloc: Global,
    warm: &mut WarmFilters<'_>,
    vars: &Vars,
    framed: &Framed,
    plain: Text,
    out: &mut Text,
) -> Result<(), Mem>
    ensures pushed { OnOk result (out.new ≡ out.old ++ (filtered (record { filters = warm.old; vars = vars.now }) framed.now plain).bytes) }
    ensures kept { OnErr result (out.new ≡ out.old ++ added out.old out.new) }
    ensures same { warm.new ≡ warm.old }
{
    let text = run_named(alloc, warm, vars, names_of(&framed.filters), plain)?;
    push_filtered_head(framed, text.len(), out)?;
    out.push_all(text.as_bytes())
}
