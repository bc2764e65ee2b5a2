//! Values in bits: a `Coding` lays the letters over a scope on consecutive levels of a `Space`, each variable with a code
//! of its own. A code past the end of a domain is in no set of letters.
#![tactic(auto)]

mod codes;
mod coding;
mod fault;
mod field;
mod laws;
mod numbers;
mod planning;
mod spots;

pub use coding::Coding;
pub use fault::CodeFault;
pub use laws::{apart_codes_are_of_values, codes_are_of_letters};
pub use spots::{all_values, same_number};
