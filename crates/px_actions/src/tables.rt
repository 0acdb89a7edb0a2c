// What is set of each kind of action, in little room while no kind has a value.
ghost use Rattle.std.specs.Prelude.{◌≡◌, ◌≢◌, ◌++◌, IfOk, IsErr, OnErr, OnOk, option_copied};
ghost use Rattle.px_actions.specs.Kinds.{entry_of};
ghost use Rattle.px_actions.specs.Shapes.{TakesMemory};
ghost use Rattle.px_actions.specs.Sets.{IsSoundSet, empty_set, is_switched, multi_values, setting_lines, setting_of, single_value, updated};
ghost use Rattle.px_actions.specs.declared.kinds.Shape.TheVariants as shape;

use crate::changes::Change;
use crate::entries::Entries;
use crate::kinds::{Kind, Shape};
use crate::settings::{change_flag, print_flag};
use px_base::{Mem, Text};
use std::alloc::Global;
use std::marker::Model;

/// What is set of each kind, seen as the settings by the kinds' numbers. Flags stand in it; another kind has an entry from its
/// first value on, so a table without values holds no memory.
#[derive(Drop)]
pub struct Table {
    /// Which flags are on, by the kind's number.
    flags: [bool; 41],
    /// What is set of the kinds that aren't flags.
    entries: Entries,
}

impl Model for Table {
    ghost use Rattle.std.specs.Prelude.{List};
    ghost use Rattle.px_actions.specs.declared.settings.Setting.{Setting};
    ghost use Rattle.px_actions.specs.Tables.{laid_over};

    ghost Value = { List Setting };

    ghost view = { λ t. laid_over t.flags t.entries };
}

impl Table {
    /// The table in which nothing is set, which takes no memory.
    pub fn empty(alloc: Global) -> Table
        ensures { result ≡ empty_set }
    {
        Table {
            flags: [false; 41],
            entries: Entries::empty(alloc),
        }
    }

    /// Applies a change to a kind. After `Mem`, which comes only of `Set` and `Add`, all is as it was.
    pub fn change(&mut self, alloc: Global, kind: Kind, change: &Change) -> Result<(), Mem>
        requires sound { IsSoundSet self.old }
        ensures ok { OnOk result (self.new ≡ updated self.old kind change.now) }
        ensures err { OnErr result (self.new ≡ self.old) }
        ensures memory { IsErr result → TakesMemory change.now }
    {
        match kind.shape() {
            Shape::Flag => {
                change_flag(&mut self.flags[kind.place()], change);
                Ok(())
            }
            Shape::Single => self.entries.change(alloc, kind, change),
            Shape::Multi => self.entries.change(alloc, kind, change),
        }
    }

    /// Whether a flag is on.
    pub fn is_switched(&self, kind: Kind) -> bool
        requires sound { IsSoundSet self.now }
        ensures { result ≡ is_switched (setting_of self.now kind) }
    {
        match kind.shape() {
            Shape::Flag => self.flags[kind.place()],
            Shape::Single => false,
            Shape::Multi => false,
        }
    }

    /// The value of a single kind.
    pub fn value(&self, kind: Kind) -> Option<&[u8]>
        requires sound { IsSoundSet self.now }
        ensures { option_copied result ≡ single_value (setting_of self.now kind) }
    {
        match self.entries.get(kind) {
            Some(setting) => setting.value(),
            None => None,
        }
    }

    /// The values of a list.
    pub fn values(&self, kind: Kind) -> &[Text]
        requires sound { IsSoundSet self.now }
        ensures { result.now ≡ multi_values (setting_of self.now kind) }
    {
        match self.entries.get(kind) {
            Some(setting) => setting.values(),
            None => &[],
        }
    }

    /// An equal table.
    pub fn copy(&self, alloc: Global) -> Result<Table, Mem>
        ensures { IfOk result (λ t. t ≡ self.now) }
    {
        Ok(Table {
            flags: self.flags,
            entries: self.entries.copy(alloc)?,
        })
    }

    /// Adds the lines of a kind at the end of a text.
    pub fn print(&self, kind: Kind, out: &mut Text) -> Result<(), Mem>
        requires sound { IsSoundSet self.now }
        ensures { OnOk result (out.new ≡ out.old ++ setting_lines (entry_of kind).name (setting_of self.now kind)) }
    {
        let name = kind.name().as_bytes();
        match kind.shape() {
            Shape::Flag => {
                if self.flags[kind.place()] {
                    print_flag(name, out)
                } else {
                    Ok(())
                }
            }
            Shape::Single => self.print_value(kind, name, out),
            Shape::Multi => self.print_value(kind, name, out),
        }
    }

    /// Adds the lines of a kind that isn't a flag at the end of a text.
    fn print_value(&self, kind: Kind, name: &[u8], out: &mut Text) -> Result<(), Mem>
        requires sound { IsSoundSet self.now }
        requires other { (entry_of kind).shape ≢ shape.Flag }
        ensures { OnOk result (out.new ≡ out.old ++ setting_lines name.now (setting_of self.now kind)) }
    {
        match self.entries.get(kind) {
            Some(setting) => setting.print(name, out),
            None => Ok(()),
        }
    }
}
