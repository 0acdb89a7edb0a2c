// Header filters.
ghost use Rattle.std.specs.Prelude.{◌≡◌, is_some, unwrap_or, IfOk};
ghost use Rattle.std.specs.List.{list_any};
ghost use Rattle.px_fields.specs.FieldLines.{read_field, field_line};
ghost use Rattle.px_filter_files.specs.FilterFiles.{found};
ghost use Rattle.px_headers.specs.HeldBack.{is_held, IsHeldBackOf};
ghost use Rattle.px_headers.specs.Filtering.{filter_kind, filter_lines, header_filter_names, filtered_fields, made_field, made_fields, read_again, run_all, run_header_filter, some_found};

use crate::held_back::{HeldBack, MessageKind, pass_on};
use crate::rows::write_line;
use crate::rules::HeaderRules;
use px_actions::{ActionSet, Kind};
use px_base::{List, Mem, Text};
use px_fields::{Field, read_field_line};
use px_filter_files::{FilterKind, Filters, WarmFilters};
use px_subst::Vars;
use std::alloc::Global;

pub(crate) fn filter_kind(message: MessageKind) -> FilterKind
    ensures { result ≡ filter_kind message }
{
    match message {
        MessageKind::Request => FilterKind::ClientHeader,
        MessageKind::Response => FilterKind::ServerHeader,
    }
}

/// The names of the header filters that are in force.
pub(crate) fn filter_names(message: MessageKind, set: &ActionSet) -> &[Text]
    ensures { result.now ≡ header_filter_names message set.now }
{
    match message {
        MessageKind::Request => set.values(Kind::ClientHeaderFilter),
        MessageKind::Response => set.values(Kind::ServerHeaderFilter),
    }
}

/// Whether there is a filter of one of those names.
#[tactic(auto, unfolding(crate::specs::Filtering::some_found))]
pub(crate) fn some_found(filters: &Filters, kind: FilterKind, names: &[Text]) -> bool
    ensures { result ≡ some_found filters.now kind names.now }
{
    names
        .iter()
        .any(|name| filters.find(kind, name.as_bytes()).is_some())
}

/// The text that filters made, or the one that they were given while nothing was hit.
fn text_of<'t>(done: &'t Option<Text>, given: &'t [u8]) -> &'t [u8]
    ensures { result.now ≡ unwrap_or done.now given.now }
{
    match done {
        Some(text) => text.as_bytes(),
        None => given,
    }
}

/// Runs one filter more. `done` is what the filters before made, or None while nothing was hit, so that no copy is made.
fn run_next(
    alloc: Global,
    warm: &mut WarmFilters<'_>,
    kind: FilterKind,
    name: &[u8],
    done: Option<Text>,
    given: &[u8],
    vars: &Vars,
) -> Result<Option<Text>, Mem>
    ensures value { IfOk result (λ next. unwrap_or next given.now ≡ run_header_filter warm.old kind vars.now (unwrap_or done given.now) name.now) }
    ensures same { warm.new ≡ warm.old }
{
    match warm.try_run(alloc, kind, name, text_of(&done, given), vars)? {
        Some(outcome) => Ok(Some(outcome.text)),
        None => Ok(done),
    }
}

/// What the filters of those names make of a text, or None where nothing is hit.
#[tactic(auto, unfolding(crate::specs::Filtering::run_all))]
pub(crate) fn run_all(
    alloc: Global,
    warm: &mut WarmFilters<'_>,
    kind: FilterKind,
    names: &[Text],
    text: &[u8],
    vars: &Vars,
) -> Result<Option<Text>, Mem>
    ensures value { IfOk result (λ done. unwrap_or done text.now ≡ run_all warm.old kind vars.now names.now text.now) }
    ensures same { warm.new ≡ warm.old }
{
    let mut done = None;
    for name in names {
        done = run_next(alloc, warm, kind, name.as_bytes(), done, text, vars)?;
    }
    Ok(done)
}

/// Reads a field line, if it is one.
fn read_field(alloc: Global, text: &[u8]) -> Result<Option<Field>, Mem>
    ensures { IfOk result (λ field. field ≡ read_field text.now) }
{
    match read_field_line(text) {
        Some(line) => Ok(Some(Field {
            name: Text::from_bytes(alloc, line.name)?,
            value: Text::from_bytes(alloc, line.value)?,
        })),
        None => Ok(None),
    }
}

/// What a field becomes by what the filters made of its line.
fn read_again(
    alloc: Global,
    field: Field,
    line: &[u8],
    done: Option<Text>,
) -> Result<Option<Field>, Mem>
    requires { line.now ≡ field_line field }
    ensures { IfOk result (λ read. read ≡ read_again field (unwrap_or done line.now)) }
{
    match done {
        Some(text) => {
            if text.as_bytes() == line {
                Ok(Some(field))
            } else {
                read_field(alloc, text.as_bytes())
            }
        }
        None => Ok(Some(field)),
    }
}

/// What filters make of a field. `line` is room for its line.
fn made_field(
    alloc: Global,
    warm: &mut WarmFilters<'_>,
    kind: FilterKind,
    names: &[Text],
    vars: &Vars,
    line: &mut Text,
    field: Field,
) -> Result<Option<Field>, Mem>
    ensures value { IfOk result (λ made. made ≡ made_field (run_all warm.old kind vars.now names.now) field) }
    ensures same { warm.new ≡ warm.old }
{
    write_line(line, &field)?;
    let done = run_all(alloc, warm, kind, names, line.as_bytes(), vars)?;
    read_again(alloc, field, line.as_bytes(), done)
}

/// What filters make of fields, one by one.
fn made_fields(
    alloc: Global,
    fields: List<Field>,
    warm: &mut WarmFilters<'_>,
    kind: FilterKind,
    names: &[Text],
    vars: &Vars,
) -> Result<List<Field>, Mem>
    ensures value { IfOk result (λ made. made ≡ made_fields (run_all warm.old kind vars.now names.now) fields) }
    ensures same { warm.new ≡ warm.old }
{
    let mut line = Text::new(alloc);
    let mut made = List::with_capacity(alloc, fields.len())?;
    let mut rest = fields.into_vec().into_iter();
    'fields: while let Some(field) = rest.next() {
        if let Some(field) = made_field(alloc, warm, kind, names, vars, &mut line, field)? {
            made.add(field)?;
        }
    }
    Ok(made)
}

/// What filters make of fields, without those whose names are held back.
fn filtered_fields(
    alloc: Global,
    fields: List<Field>,
    held: &HeldBack,
    warm: &mut WarmFilters<'_>,
    kind: FilterKind,
    names: &[Text],
    vars: &Vars,
) -> Result<List<Field>, Mem>
    ensures value { IfOk result (λ kept. kept ≡ filtered_fields (is_held held.now) (run_all warm.old kind vars.now names.now) fields) }
    ensures same { warm.new ≡ warm.old }
{
    let made = made_fields(alloc, fields, warm, kind, names, vars)?;
    Ok(pass_on(made, held))
}

/// The fields behind the header filters that are in force, where there is one of them. `held` are the names that are held
/// back of the message; fields of these names don't come back.
pub(crate) fn filter_lines(
    alloc: Global,
    fields: List<Field>,
    held: &HeldBack,
    rules: &HeaderRules<'_>,
    warm: &mut WarmFilters<'_>,
) -> Result<List<Field>, Mem>
    requires { warm.old ≡ rules.now.filters.now }
    ensures value { IfOk result (λ kept. (message received : _) → IsHeldBackOf message received held.now
        → kept ≡ filter_lines message received rules.now.set.now rules.now.filters.now rules.now.vars.now fields) }
    ensures same { warm.new ≡ warm.old }
{
    let kind = filter_kind(held.message);
    let names = filter_names(held.message, rules.set);
    if some_found(rules.filters, kind, names) {
        filtered_fields(alloc, fields, held, warm, kind, names, rules.vars)
    } else {
        Ok(fields)
    }
}

/// Whether there is one of the header filters that are in force for a message.
pub(crate) fn has_filters(message: MessageKind, rules: &HeaderRules<'_>) -> bool
    ensures { result ≡ some_found rules.now.filters.now (filter_kind message) (header_filter_names message rules.now.set.now) }
{
    some_found(
        rules.filters,
        filter_kind(message),
        filter_names(message, rules.set),
    )
}

/// A first line behind the header filters that are in force.
pub(crate) fn filtered_line(
    alloc: Global,
    message: MessageKind,
    rules: &HeaderRules<'_>,
    warm: &mut WarmFilters<'_>,
    line: &[u8],
) -> Result<Text, Mem>
    ensures value { IfOk result (λ done. done ≡ run_all warm.old (filter_kind message) rules.now.vars.now (header_filter_names message rules.now.set.now) line.now) }
    ensures same { warm.new ≡ warm.old }
{
    let names = filter_names(message, rules.set);
    match run_all(alloc, warm, filter_kind(message), names, line, rules.vars)? {
        Some(text) => Ok(text),
        None => Text::from_bytes(alloc, line),
    }
}
