//! Published configurations: one publisher, and readers that wait for nobody.
#![tactic(auto)]

mod configs;
mod fixed;
mod fronts;
mod laws;
mod pairs;
mod publishers;
mod readers;
mod receipts;
mod rules;
mod shared;
mod writers;

pub use configs::{Configs, CountFull, Snapshot};
pub use fixed::{FixedConfig, StepConfig};
pub use laws::{later_sessions_use_none_older, sessions_rise};
pub use pairs::publish_pair;
pub use publishers::Publisher;
pub use readers::ConfigReader;
pub use receipts::Receipt;
