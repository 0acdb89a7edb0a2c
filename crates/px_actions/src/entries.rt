// What is set of the kinds that aren't flags, in little room: a usual set has three or four values.
ghost use Rattle.std.specs.Prelude.{◌≡◌, ◌≢◌, ◌++◌, ◌∷◌, [], Bool, IfOk, IsErr, List, OnErr, OnOk, Some, option_copied};
ghost use Rattle.std.specs.List.{position};
ghost use Rattle.px_actions.specs.Kinds.{entry_of};
ghost use Rattle.px_actions.specs.Shapes.{TakesMemory};
ghost use Rattle.px_actions.specs.Sets.{empty_set, setting_of, updated};
ghost use Rattle.px_actions.specs.Tables.{AreMarked, first_entry, is_of_kind, setting_or_empty, settings_in};
ghost use Rattle.px_actions.specs.declared.kinds.Shape.TheVariants as shape;

use crate::changes::Change;
use crate::kinds::Kind;
use crate::settings::Setting;
use px_base::Mem;
use std::alloc::Global;
use std::marker::Model;

/// How many entries the first one takes room for, so that a usual set takes memory for them once.
const FIRST_ROOM: usize = 8;

/// What is set of a kind that isn't a flag.
#[derive(Drop)]
pub struct SetEntry {
    pub kind: Kind,
    pub setting: Setting,
}

/// What is set of the kinds that aren't flags, seen as the settings by the kinds' numbers. A kind has an entry from its first
/// value on.
#[derive(Drop)]
pub struct Entries {
    /// Which kinds have an entry, by the kind's number: it spares the walk for most kinds that are asked for.
    marks: [bool; 41],
    /// In the order of the kinds' first values.
    entries: Vec<SetEntry>,
}

impl Model for Entries {
    ghost use Rattle.std.specs.Prelude.{List};
    ghost use Rattle.px_actions.specs.declared.settings.Setting.{Setting};
    ghost use Rattle.px_actions.specs.Tables.{AreMarked, settings_in};

    ghost Value = { List Setting };

    ghost view = { λ e. settings_in e.entries.items };

    ghost invariant = { λ e. AreMarked e.marks e.entries.items };
}

impl Entries {
    /// Nothing is set, which takes no memory.
    pub fn empty(alloc: Global) -> Entries
        ensures { result ≡ empty_set }
    {
        Entries {
            marks: [false; 41],
            entries: Vec::new(alloc),
        }
    }

    /// Applies a change to a kind that isn't a flag. After `Mem` all is as it was.
    pub fn change(&mut self, alloc: Global, kind: Kind, change: &Change) -> Result<(), Mem>
        requires other { (entry_of kind).shape ≢ shape.Flag }
        ensures ok { OnOk result (self.new ≡ updated self.old kind change.now) }
        ensures err { OnErr result (self.new ≡ self.old) }
        ensures memory { IsErr result → TakesMemory change.now }
    {
        match place_of(&self.marks, &self.entries, kind) {
            Some(at) => change_entry(alloc, &mut self.entries, kind, at, change),
            None => match change {
                Change::Set(_) | Change::Add(_) => {
                    add_entry(alloc, &mut self.entries, kind, change)?;
                    self.marks[kind.place()] = true;
                    Ok(())
                }
                Change::On | Change::Off | Change::Remove(_) | Change::Clear => Ok(()),
            },
        }
    }

    /// What is set of a kind, if it has an entry.
    pub fn get(&self, kind: Kind) -> Option<&Setting>
        ensures { setting_of self.now kind ≡ setting_or_empty kind (option_copied result) }
    {
        match place_of(&self.marks, &self.entries, kind) {
            Some(at) => Some(&self.entries[at].setting),
            None => None,
        }
    }

    /// Equal entries.
    pub fn copy(&self, alloc: Global) -> Result<Entries, Mem>
        ensures { IfOk result (λ e. e ≡ self.now) }
    {
        Ok(Entries {
            marks: self.marks,
            entries: copy_entries(alloc, &self.entries)?,
        })
    }
}

/// The place of a kind's entry.
fn place_of(marks: &[bool; 41], entries: &[SetEntry], kind: Kind) -> Option<usize>
    requires { AreMarked marks.now entries.now }
    ensures { result ≡ position (is_of_kind kind) entries.now }
{
    let place = kind.place();
    if !marks[place] {
        return None;
    }
    entries.iter().position(|entry| entry.kind.place() == place)
}

/// Applies a change to a kind's entry.
fn change_entry(
    alloc: Global,
    entries: &mut [SetEntry],
    kind: Kind,
    at: usize,
    change: &Change,
) -> Result<(), Mem>
    requires found { position (is_of_kind kind) entries.old ≡ Some at }
    ensures ok { OnOk result (settings_in entries.new ≡ updated (settings_in entries.old) kind change.now) }
    ensures err { OnErr result (entries.new ≡ entries.old) }
    ensures marked { (marks : List Bool) → AreMarked marks entries.old → AreMarked marks entries.new }
    ensures memory { IsErr result → TakesMemory change.now }
{
    entries[at].setting.change(alloc, change)
}

/// Adds the entry of a kind that gets its first value.
fn add_entry(
    alloc: Global,
    entries: &mut Vec<SetEntry>,
    kind: Kind,
    change: &Change,
) -> Result<(), Mem>
    ensures ok { OnOk result (entries.new.items ≡ entries.old.items ++ first_entry kind change.now ∷ []) }
    ensures err { OnErr result (entries.new.items ≡ entries.old.items) }
{
    let mut setting = Setting::empty(alloc, kind.shape());
    setting.change(alloc, change)?;
    if entries.is_empty() {
        entries.reserve(FIRST_ROOM)?;
    }
    entries.push(SetEntry { kind, setting })?;
    Ok(())
}

fn copy_entries(alloc: Global, entries: &[SetEntry]) -> Result<Vec<SetEntry>, Mem>
    ensures { IfOk result (λ copies. copies.items ≡ entries.now) }
{
    let mut copies = Vec::with_capacity(alloc, entries.len())?;
    for entry in entries {
        copies.push(SetEntry {
            kind: entry.kind,
            setting: entry.setting.copy(alloc)?,
        })?;
    }
    Ok(copies)
}
