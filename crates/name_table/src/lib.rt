//! The names of variables and of their values. A `Domain` is a list of different value names, a `Names` numbers
//! variables in the order in which they were added, and a `Scope` is a list of variables that words run over.
#![tactic(auto)]

mod bits;
mod domain;
mod fault;
mod name_set;
mod names;
mod number;
mod scope;
mod scope_var;
mod value_name;

pub use bits::code_bits;
pub use domain::Domain;
pub use fault::{DomainFault, NameFault};
#[doc(hidden)]
pub use name_set::NameSet;
pub use names::{Names, VarId};
pub use scope::Scope;
pub use scope_var::ScopeVar;
pub use value_name::ValueName;
