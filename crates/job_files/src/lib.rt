//! The files of a job, read as networks.
#![tactic(auto)]

mod files;

pub use files::read_file;
