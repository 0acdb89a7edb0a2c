//! The files of the system, of which those that were read are kept: a file whose look is the same isn't read again.
#![tactic(auto)]

mod kept_files;
mod looks;
mod readings;
mod stamps;
mod stores;
mod wholes;

pub use kept_files::KeptFiles;
pub use readings::Readings;
pub use stamps::FileStamp;
