//! The levels of a problem: where the codes of its letters, signals and states stand.
#![tactic(auto)]

mod codes;
mod file_frame;
mod frame;
mod joint;
mod latches;
mod laws;
mod letters;

pub use frame::Frame;
pub use laws::letters_are_laid;
