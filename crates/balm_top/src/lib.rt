//! The top call: everything that the program does, from its words and the bytes of its files to the bytes that it
//! prints. What it promises stands in the clauses of `run`.
#![tactic(auto)]

mod problem;
mod top_call;

pub use fault_lines::Status;
pub use job_words::Args;
pub use top_call::run;
