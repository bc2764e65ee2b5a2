//! The model of the unknown component equation: its letters, words and scopes, composition, the safe words and the
//! largest solution, all in `specs/`, and the plain data that files are read to.
//! The theory is that of Villa, Yevtushenko, Brayton, Mishchenko, Petrenko and Sangiovanni-Vincentelli, "The Unknown
//! Component Problem" (Springer 2012).
#![tactic(auto)]

mod automaton;
mod class;
mod directive;
mod file;
mod kiss_directive;
mod letter;
mod letter_signals;
mod machine;
mod name_list;
mod net;
mod outline;
mod refusal;
mod text_fault;

pub use class::{Class, Mode};
pub use directive::Directive;
pub use file::File;
pub use kiss_directive::KissDirective;
pub use letter::{Letter, ValueSet, Word};
pub use machine::{Bit, KissRow, Machine};
pub use name_list::NameList;
pub use net::{Entry, Latch, Net, Row, Table};
pub use refusal::{NameRefusal, Slot};
pub use text_fault::{TextFault, TextKind, Which};
