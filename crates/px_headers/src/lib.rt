//! Header actions: what becomes of the fields of a request that is sent on, and of an answer that is returned.
#![tactic(auto)]

mod client;
mod client_rows;
mod cookies;
mod dates;
mod faults;
mod filtering;
mod held_back;
mod kinds;
mod referrers;
mod rewrites;
mod rows;
mod rules;
mod server;
mod server_rows;

pub use client::{ClientOut, client_headers};
pub use faults::HeaderFault;
pub use kinds::is_text;
pub use rules::HeaderRules;
pub use server::{ServerOut, server_headers};
