//! Tests of the lower layers of the texts: the files and sinks, the words of lines, and what the lines say.
#![tactic(auto)]

#[cfg(test)]
mod forms;
#[cfg(test)]
mod lexing;
#[cfg(test)]
mod outside;
