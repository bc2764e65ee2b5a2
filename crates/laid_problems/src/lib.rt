//! Problems of two texts with a space of their levels, for tests.
#![tactic(auto)]

mod problems;

pub use problems::{Laid, drop_frame, drop_problem, drop_space, file_of, laid_problem, problem_of};
