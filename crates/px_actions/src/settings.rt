// What is set of a kind of action.
ghost use Rattle.std.specs.Prelude.{◌≡◌, ◌++◌, [], IfOk, IsErr, OnErr, OnOk, option_copied};
ghost use Rattle.std.specs.List.{flat_map};
ghost use Rattle.px_actions.specs.Shapes.{TakesMemory};
ghost use Rattle.px_actions.specs.declared.settings.Setting.TheVariants as setting;
ghost use Rattle.px_actions.specs.Sets.{is_among, with_listed_value, without_value, changed_setting, empty_setting, single_value, multi_values, setting_lines, flag_line, value_line};

use crate::changes::Change;
use crate::kinds::Shape;
use px_base::{List, Mem, Text};
use std::alloc::Global;
use std::mem;

/// What is set of a kind of action, by its shape.
#[derive(Drop)]
pub enum Setting {
    /// Whether a flag is on.
    Flag(bool),
    /// The value of a single kind.
    Single(Option<Text>),
    /// The values of a list, in its order.
    Multi(List<Text>),
}

impl Setting {
    /// Nothing is set.
    pub(crate) fn empty(alloc: Global, shape: Shape) -> Setting
        ensures { result ≡ empty_setting shape }
    {
        match shape {
            Shape::Flag => Setting::Flag(false),
            Shape::Single => Setting::Single(None),
            Shape::Multi => Setting::Multi(List::new(alloc)),
        }
    }

    /// Applies a change. After `Mem`, which comes only of `Set` and `Add`, all is as it was.
    pub(crate) fn change(&mut self, alloc: Global, change: &Change) -> Result<(), Mem>
        ensures ok { OnOk result (self.new ≡ changed_setting self.old change.now) }
        ensures err { OnErr result (self.new ≡ self.old) }
        ensures memory { IsErr result → TakesMemory change.now }
    {
        match self {
            Setting::Flag(on) => {
                change_flag(on, change);
                Ok(())
            }
            Setting::Single(value) => change_single(alloc, value, change),
            Setting::Multi(values) => change_multi(alloc, values, change),
        }
    }

    pub(crate) fn value(&self) -> Option<&[u8]>
        ensures { option_copied result ≡ single_value self.now }
    {
        match self {
            Setting::Flag(_) => None,
            Setting::Single(None) => None,
            Setting::Single(Some(value)) => Some(value.as_bytes()),
            Setting::Multi(_) => None,
        }
    }

    pub(crate) fn values(&self) -> &[Text]
        ensures { result.now ≡ multi_values self.now }
    {
        match self {
            Setting::Flag(_) => &[],
            Setting::Single(_) => &[],
            Setting::Multi(values) => values.as_slice(),
        }
    }

    /// An equal setting.
    pub(crate) fn copy(&self, alloc: Global) -> Result<Setting, Mem>
        ensures { IfOk result (λ s. s ≡ self.now) }
    {
        match self {
            Setting::Flag(on) => Ok(Setting::Flag(*on)),
            Setting::Single(None) => Ok(Setting::Single(None)),
            Setting::Single(Some(value)) => Ok(Setting::Single(Some(Text::from_bytes(
                alloc,
                value.as_bytes(),
            )?))),
            Setting::Multi(values) => Ok(Setting::Multi(copy_texts(alloc, values.as_slice())?)),
        }
    }

    /// Adds its lines at the end of a text.
    pub(crate) fn print(&self, name: &[u8], out: &mut Text) -> Result<(), Mem>
        ensures { OnOk result (out.new ≡ out.old ++ setting_lines name.now self.now) }
    {
        match self {
            Setting::Flag(true) => print_flag(name, out),
            Setting::Flag(false) => Ok(()),
            Setting::Single(Some(value)) => print_value(name, value.as_bytes(), out),
            Setting::Single(None) => Ok(()),
            Setting::Multi(values) => print_values(name, values.as_slice(), out),
        }
    }
}

pub fn change_flag(on: &mut bool, change: &Change)
    ensures { setting.Flag on.new ≡ changed_setting (setting.Flag on.old) change.now }
{
    match change {
        Change::On => *on = true,
        Change::Off => *on = false,
        Change::Set(_) | Change::Add(_) | Change::Remove(_) | Change::Clear => {}
    }
}

fn change_single(alloc: Global, value: &mut Option<Text>, change: &Change) -> Result<(), Mem>
    ensures ok { OnOk result (setting.Single value.new ≡ changed_setting (setting.Single value.old) change.now) }
    ensures err { OnErr result (value.new ≡ value.old) }
    ensures memory { IsErr result → TakesMemory change.now }
{
    match change {
        Change::Set(text) => *value = Some(Text::from_bytes(alloc, text.as_bytes())?),
        Change::Off => *value = None,
        Change::On | Change::Add(_) | Change::Remove(_) | Change::Clear => {}
    }
    Ok(())
}

fn change_multi(alloc: Global, values: &mut List<Text>, change: &Change) -> Result<(), Mem>
    ensures ok { OnOk result (setting.Multi values.new ≡ changed_setting (setting.Multi values.old) change.now) }
    ensures err { OnErr result (values.new ≡ values.old) }
    ensures memory { IsErr result → TakesMemory change.now }
{
    match change {
        Change::Add(text) => add_once(alloc, values, text.as_bytes())?,
        Change::Remove(text) => remove(alloc, values, text.as_bytes()),
        Change::Clear => *values = List::new(alloc),
        Change::On | Change::Off | Change::Set(_) => {}
    }
    Ok(())
}

fn is_among(value: &[u8], values: &[Text]) -> bool
    ensures { result ≡ is_among value.now values.now }
{
    values.iter().any(|other| other.as_bytes() == value)
}

/// Puts a value last into a list, unless it is there. After `Mem` the list is as it was.
pub fn add_once(alloc: Global, values: &mut List<Text>, value: &[u8]) -> Result<(), Mem>
    ensures ok { OnOk result (values.new ≡ with_listed_value value.now values.old) }
    ensures err { OnErr result (values.new ≡ values.old) }
{
    if is_among(value, values.as_slice()) {
        return Ok(());
    }
    values.add(Text::from_bytes(alloc, value)?)
}

/// Takes a value out, the others in their order.
fn remove(alloc: Global, values: &mut List<Text>, value: &[u8])
    ensures { values.new ≡ without_value value.now values.old }
{
    let mut texts = mem::replace(values, List::new(alloc)).into_vec();
    texts.retain(|text| text.as_bytes() != value);
    *values = List::from_vec(texts);
}

/// Equal texts in the same order.
fn copy_texts(alloc: Global, texts: &[Text]) -> Result<List<Text>, Mem>
    ensures { IfOk result (λ copies. copies ≡ texts.now) }
{
    let mut copies = Vec::with_capacity(alloc, texts.len())?;
    for text in texts {
        copies.push(Text::from_bytes(alloc, text.as_bytes())?)?;
    }
    Ok(List::from_vec(copies))
}

pub fn print_flag(name: &[u8], out: &mut Text) -> Result<(), Mem>
    ensures { OnOk result (out.new ≡ out.old ++ flag_line name.now) }
{
    out.push(b'+')?;
    out.push_all(name)?;
    out.push(b'\n')
}

fn print_value(name: &[u8], value: &[u8], out: &mut Text) -> Result<(), Mem>
    ensures { OnOk result (out.new ≡ out.old ++ value_line name.now value.now) }
{
    out.push(b'+')?;
    out.push_all(name)?;
    out.push(b'{')?;
    out.push_all(value)?;
    out.push_all(b"}\n")
}

fn print_values(name: &[u8], values: &[Text], out: &mut Text) -> Result<(), Mem>
    ensures { OnOk result (out.new ≡ out.old ++ flat_map (value_line name.now) values.now) }
{
    for value in values {
        print_value(name, value.as_bytes(), out)?;
    }
    Ok(())
}
