//! The lines about states, appended to the text that is being built.

ghost use Rattle.std.specs.Prelude.{◌≡◌, [], ◌∷◌, ◌++◌, OnOk};
ghost use Rattle.net_model.specs.Printed.{state_name, states_line, mark_field, line_bytes};

use crate::fields::{push_number, push_state, push_states};
use std::alloc::AllocError;

/// The domain of the present and the next state.
pub fn push_states_line(text: &mut Vec<u8>, count: usize) -> Result<(), AllocError>
    ensures { OnOk result (text.new.items ≡ text.old.items ++ line_bytes (states_line count)) }
{
    text.extend_from_slice(b".mv CS,NS ")?;
    push_number(text, count)?;
    push_states(text, count)?;
    text.push(b'\n')?;
    Ok(())
}

/// The line of one state.
pub fn push_mark_line(text: &mut Vec<u8>, state: usize, mark: bool) -> Result<(), AllocError>
    ensures { OnOk result (text.new.items ≡ text.old.items ++ line_bytes (state_name state ∷ mark_field mark ∷ [])) }
{
    push_state(text, state)?;
    text.extend_from_slice(if mark { b" 1\n" } else { b" 0\n" })
}
