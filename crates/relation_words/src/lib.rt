//! That the relation of a file, as diagrams on the levels of a frame, has the words of the file.
#![tactic(auto)]

mod laws;

pub use laws::relations_have_the_words_of_files;
