//! What the bits at the levels of a frame spell, and how these levels lie, as functions that do nothing.
#![tactic(auto)]

mod laws;

pub use laws::{bits_spell_the_parts_of_joint_letters, letters_lie_above};
