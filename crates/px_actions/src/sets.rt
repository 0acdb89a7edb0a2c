// Action sets.
ghost use Rattle.std.specs.Prelude.{◌≡◌, ◌++◌, IfOk, IfSome, IsErr, IfErr, OnErr, OnOk, IsTrue, option_copied, true};
ghost use Rattle.std.specs.List.{flat_map, list_all};
ghost use Rattle.px_actions.specs.Kinds.{entry_of};
ghost use Rattle.px_actions.specs.Rules.{keeps_rule};
ghost use Rattle.px_actions.specs.Shapes.{TakesMemory};
ghost use Rattle.px_actions.specs.Sets.{IsSoundSet, updated, updated_all, IsUpdatedByFront, empty_set, is_on, value, set_values, is_distinct, set_lines, setting_lines, setting_of};

use crate::kinds::{KINDS, Kind};
use crate::tables::Table;
use crate::updates::Update;
use px_base::{Mem, Text};
use std::alloc::Global;
use std::marker::Model;

/// Which flags are on, which single kinds have which value, and which values each list has. Every value keeps the rule
/// of its kind, and no list has a value twice.
#[derive(Drop)]
pub struct ActionSet {
    alloc: Global,
    table: Table,
}

impl Model for ActionSet {
    ghost use Rattle.std.specs.Prelude.{List};
    ghost use Rattle.px_actions.specs.declared.settings.Setting.{Setting};

    ghost Value = { List Setting };

    ghost use Rattle.px_actions.specs.Sets.{IsSoundSet};

    ghost view = { λ s. s.table };

    ghost invariant = { λ s. IsSoundSet s.table };
}

impl ActionSet {
    /// The set in which nothing is set, which takes no memory.
    pub fn empty(alloc: Global) -> ActionSet
        ensures { result ≡ empty_set }
    {
        ActionSet {
            alloc,
            table: Table::empty(alloc),
        }
    }

    /// Applies an update. After `Mem`, which comes only of `Set` and `Add`, the set is as it was.
    pub fn apply(&mut self, update: &Update) -> Result<(), Mem>
        ensures ok { OnOk result (self.new ≡ updated self.old update.now.kind update.now.change) }
        ensures err { OnErr result (self.new ≡ self.old) }
        ensures memory { IsErr result → TakesMemory update.now.change }
    {
        self.table.change(self.alloc, update.kind, &update.change)
    }

    /// Applies updates in their order. After `Mem` some first ones of them are applied.
    pub fn apply_all(&mut self, updates: &[Update]) -> Result<(), Mem>
        ensures ok { OnOk result (self.new ≡ updated_all self.old updates.now) }
        ensures err { IfErr result (λ _. IsUpdatedByFront self.old updates.now self.new) }
    {
        for update in updates {
            self.apply(update)?;
        }
        Ok(())
    }

    /// Whether a flag is on. A kind that isn't a flag is never on.
    #[tactic(auto, unfolding(crate::specs::Sets::is_on))]
    pub fn is_on(&self, kind: Kind) -> bool
        ensures { result ≡ is_on self.now kind }
    {
        self.table.is_switched(kind)
    }

    /// The value of a single kind, if it has one. Another kind has none.
    #[tactic(auto, unfolding(crate::specs::Sets::value))]
    pub fn value(&self, kind: Kind) -> Option<&[u8]>
        ensures value { option_copied result ≡ value self.now kind }
        ensures kept { IfSome result (λ v. IsTrue (keeps_rule (entry_of kind).rule v.now)) }
    {
        self.table.value(kind)
    }

    /// The values of a list, in its order. Another kind has none.
    #[tactic(auto, unfolding(crate::specs::Sets::set_values))]
    pub fn values(&self, kind: Kind) -> &[Text]
        ensures values { result.now ≡ set_values self.now kind }
        ensures kept { IsTrue (list_all (keeps_rule (entry_of kind).rule) result.now) }
        ensures distinct { IsTrue (is_distinct result.now) }
    {
        self.table.values(kind)
    }

    /// An equal set. It takes memory once for the values where there are some, for each text and for each list that isn't empty.
    pub fn copy(&self) -> Result<ActionSet, Mem>
        ensures { IfOk result (λ set. set ≡ self.now) }
    {
        Ok(ActionSet {
            alloc: self.alloc,
            table: self.table.copy(self.alloc)?,
        })
    }

    /// A line for each flag that is on, each value of a single kind and each value of a list: `+name` or `+name{value}`.
    /// Names are in byte order, the values of a list in its order, and each line ends with LF.
    #[tactic(auto, unfolding(crate::specs::Sets::set_lines))]
    pub fn print(&self) -> Result<Text, Mem>
        ensures { IfOk result (λ text. text ≡ set_lines self.now) }
    {
        let mut out = Text::new(self.alloc);
        print_settings(&self.table, &KINDS, &mut out)?;
        Ok(out)
    }
}

fn print_settings(table: &Table, kinds: &[Kind], out: &mut Text) -> Result<(), Mem>
    requires { IsSoundSet table.now }
    ensures { OnOk result (out.new ≡ out.old ++ flat_map (λ kind. setting_lines (entry_of kind).name (setting_of table.now kind)) kinds.now) }
{
    for kind in kinds {
        table.print(*kind, out)?;
    }
    Ok(())
}
