//! The fields of a line, appended to the text that is being built. Fields have single blanks between them, so a field
//! brings the blank before it or the blank after it.

ghost use Rattle.std.specs.Prelude.{◌≡◌, ◌∷◌, ◌++◌, map, decimal, OnOk};
ghost use Rattle.std.specs.List.{range_with_len};
ghost use Rattle.net_model.specs.Printed.{state_name};
ghost use Rattle.aut_format.specs.Fields.{blank_before};

use itoa::Buffer;
use std::alloc::AllocError;

/// The field, after a blank.
pub fn push_field(text: &mut Vec<u8>, field: &[u8]) -> Result<(), AllocError>
    ensures { OnOk result (text.new.items ≡ text.old.items ++ 32 ∷ field.now) }
{
    text.push(b' ')?;
    text.extend_from_slice(field)
}

/// The number, in decimal digits.
pub fn push_number(text: &mut Vec<u8>, number: usize) -> Result<(), AllocError>
    ensures { OnOk result (text.new.items ≡ text.old.items ++ decimal number) }
{
    let mut digits = Buffer::new();
    text.extend_from_slice(digits.format(number).as_bytes())
}

/// The name of a state.
pub fn push_state(text: &mut Vec<u8>, state: usize) -> Result<(), AllocError>
    ensures { OnOk result (text.new.items ≡ text.old.items ++ state_name state) }
{
    text.push(b's')?;
    push_number(text, state)
}

/// The names of all states, each after a blank.
pub fn push_states(text: &mut Vec<u8>, count: usize) -> Result<(), AllocError>
    ensures { OnOk result (text.new.items
        ≡ text.old.items ++ blank_before (map state_name (range_with_len 0 count))) }
{
    for state in 0..count {
        text.push(b' ')?;
        push_state(text, state)?;
    }
    Ok(())
}
