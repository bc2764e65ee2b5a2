//! Reads the lines of a BLIF-MV network by their words alone: what a line says, and the entries that the words of a row
//! spell. All that it gives are slices of the text; memory is taken for the buffer of words alone.
#![tactic(auto)]

mod buffer;
mod entry;
mod first_word;
mod form;
mod list;
mod naming;
mod number;
mod row;
mod shapes;
mod signs;

pub use buffer::fill_words;
pub use entry::{Spelled, Taken, entry_at};
pub use first_word::directive_of;
pub use form::{Form, form_of, has_names};
pub use list::ListedNames;
pub use naming::{is_name, is_value_name};
pub use number::number_of;
pub use row::{Entries, spells};
