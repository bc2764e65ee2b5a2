//! Builds the problem of two files and two lists of names.
#![tactic(auto)]

mod bit_counts;
mod joint;
mod letter_vars;
mod name_faults;
mod problem;
mod scopes;
mod x_vars;

pub use bit_counts::{
    bits_of_file, bits_of_signal, bits_of_variable, is_latch_output, is_letter, own_bits_of,
};
pub use problem::Problem;
