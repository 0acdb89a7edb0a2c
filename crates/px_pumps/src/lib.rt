//! What an origin's answer becomes for the client, as it comes, piece by piece.
#![tactic(auto)]

mod answering;
mod dues;
mod flows;
mod framings;
mod heads;
mod laws;
mod pumps;
mod talks;

pub use answering::return_answer;
pub use dues::Due;
pub use flows::Flow;
pub use pumps::Pump;
pub use talks::Talked;
