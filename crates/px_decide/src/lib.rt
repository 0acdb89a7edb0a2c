//! What becomes of a request before it is sent on: the decision by its actions, and the route.
#![tactic(auto)]

mod decisions;
mod faults;
mod forwards;
mod laws;
mod redirects;
mod routes;
mod routing;
mod servers;
mod targets;
mod words;

pub use decisions::{Decision, decide};
pub use faults::ForwardFault;
pub use forwards::Forwards;
pub use laws::dial_names_are_read;
pub use routes::Route;
pub use routing::route;
pub use targets::decoded;
