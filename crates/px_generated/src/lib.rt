//! The generated job of the command `exercise`: files of a thousand sections, and ten sessions of a hundred requests and
//! answers, all made from one number. Each section and each request, with its answer, takes three draws; the files come
//! first, then the sessions in order.
#![tactic(auto)]

mod draws;
mod files;
mod jobs;
mod sessions;

pub use draws::Draws;
pub use files::{MAIN_FILE, job_files};
pub use jobs::{GeneratedJob, SESSIONS, constants, sessions_in_order};
pub use sessions::{JobSession, job_session};
