//! Kinds of actions, updates of action sets, and action sets.
#![tactic(auto)]

mod braces;
mod changes;
mod entries;
mod faults;
mod hops;
mod kinds;
mod laws;
mod rules;
mod sets;
mod settings;
mod tables;
mod updates;
mod values;

pub use braces::{balances, is_closed, split_word};
pub use changes::Change;
pub use faults::ActionFault;
pub use hops::{Hop, read_hop};
pub use kinds::{KINDS, Kind, Rule, Shape};
pub use laws::constants;
pub use rules::read_override;
pub use sets::ActionSet;
pub use settings::{Setting, add_once};
pub use updates::{Sign, Update};
pub use values::{added_field, allowed_ports, lifetime_minutes, override_hop, value_text};
