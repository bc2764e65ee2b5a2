//! The states of a machine: their names in the order of first appearance. A name is looked up by the order of names, so
//! that no choice of names makes the look-ups slow.

ghost use Rattle.std.specs.Prelude.{◌≡◌, ◌≤◌, length, IfOk, unwrap_or};
ghost use Rattle.name_table.specs.Variables.{is_in};
ghost use Rattle.net_model.specs.NetTexts.{distinct};
ghost use Rattle.net_model.specs.KissTexts.{is_every_state, state_said, state_in};
ghost use Rattle.kiss_reader.specs.Said.{form_said, states_named};
ghost use Rattle.kiss_reader.specs.Above.{AreFew, states_behind};

use crate::form::Form;
use crate::limits::put_all;
use name_table::NameSet;
use std::alloc::{AllocError, Global};

/// The most states of a machine.
const MOST_STATES: usize = 65_536;

/// Whether the word means every state.
pub(crate) fn is_every_state(word: &[u8]) -> bool
    ensures { result ≡ is_every_state word.now }
{
    word == b"-".as_slice() || word == b"*".as_slice()
}

/// Puts the states of a line among the others, and says whether they are few enough.
pub(crate) fn put_states(
    alloc: Global,
    states: &mut NameSet,
    form: Form<'_, '_>,
) -> Result<bool, AllocError>
    requires { length states.old ≤ 65536 }
    ensures { IfOk result (λ few. AreFew 65536 (states_behind states.old (form_said form.entry)) states.new few) }
{
    match form {
        Form::Row { present, next, .. } => put_both(alloc, states, present, next),
        _ => Ok(true),
    }
}

fn put_both(
    alloc: Global,
    states: &mut NameSet,
    present: &[u8],
    next: &[u8],
) -> Result<bool, AllocError>
    requires { length states.old ≤ 65536 }
    ensures { IfOk result (λ few. AreFew 65536 (distinct states.old (states_named present.now next.now)) states.new few) }
{
    match (is_every_state(present), is_every_state(next)) {
        (true, true) => Ok(true),
        (true, false) => put_all(alloc, states, &[next], MOST_STATES),
        (false, true) => put_all(alloc, states, &[present], MOST_STATES),
        (false, false) => put_all(alloc, states, &[present, next], MOST_STATES),
    }
}

/// The number of the state that the word names, and none where it means every state.
pub(crate) fn state_said(states: &NameSet, word: &[u8]) -> Option<u32>
    requires few { length states.now ≤ 65536 }
    ensures { result ≡ state_said states.now word.now }
{
    if is_every_state(word) {
        None
    } else {
        Some(state_in(states, word))
    }
}

/// The number of the state of this name, and 0 where there is none.
pub(crate) fn state_in(states: &NameSet, name: &[u8]) -> u32
    requires { length states.now ≤ 65536 }
    ensures { result ≡ state_in states.now name.now }
{
    match states.find(name) {
        Some(place) => place as u32,
        None => 0,
    }
}

/// Whether there is a state of this name.
pub(crate) fn has_state(states: &NameSet, name: &[u8]) -> bool
    ensures { result ≡ is_in states.now name.now }
{
    states.find(name).is_some()
}
