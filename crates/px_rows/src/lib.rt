//! Rows of the profile by the definitions alone: the prover computes each, so a definition that gives another value is refused.
#![tactic(auto)]

mod action_files;
mod actions;
mod answers;
mod base;
mod config;
mod decide;
mod filter_files;
mod framing;
mod head;
mod headers;
mod pages;
mod patterns;
mod sessions;
mod subst;
mod templates;
mod text;
