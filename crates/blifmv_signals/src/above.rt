//! What the lines above a line drive and reset.

ghost use Rattle.std.specs.Prelude.{◌≡◌, ◌<◌, false, length, IfOk};
ghost use Rattle.blifmv_lines.specs.Said.{form_said};
ghost use Rattle.blifmv_signals.specs.SignalFaults.{drives_on, sets_on};
ghost use Rattle.blifmv_signals.specs.Marked.{all_marked, marks_twice, nothing_above};

use crate::sets::adds_twice;
use blifmv_lines::Form;
use name_table::Names;
use net_conditions::Signals;
use std::alloc::{AllocError, Global};

/// What the lines above drive and reset, and whether one of them names outputs.
#[derive(Drop)]
pub struct Above {
    pub driven: Signals,
    pub reset: Signals,
    pub has_outputs: bool,
}

impl Above {
    // Of no line. The sets have a mark more than there are names, since signal 0 stands for a name that isn't there.
    pub(crate) fn none(alloc: Global, names: &Names) -> Result<Above, AllocError>
        ensures { IfOk result (λ above. above ≡ nothing_above names.now) }
    {
        let count = names.len() + 1;
        let driven = Signals::none(alloc, count)?;
        let reset = Signals::none(alloc, count)?;
        Ok(Above {
            driven,
            reset,
            has_outputs: false,
        })
    }
}

// Adds what a line drives, and says whether a signal of it is driven twice.
pub(crate) fn drives_twice(names: &Names, driven: &mut Signals, form: Form<'_, '_>) -> bool
    requires { length names.now < length driven.old }
    ensures twice { result ≡ marks_twice driven.old (drives_on names.now (form_said form.entry)) }
    ensures added { result ≡ false → driven.new ≡ all_marked driven.old (drives_on names.now (form_said form.entry)) }
{
    match form {
        Form::Inputs(words) => adds_twice(names, driven, words),
        Form::Table { outs, .. } => adds_twice(names, driven, outs),
        Form::Latch { output, .. } => adds_twice(names, driven, &[output]),
        _ => false,
    }
}

// Adds what a line resets, and says whether a signal of it is reset twice.
pub(crate) fn resets_twice(names: &Names, reset: &mut Signals, form: Form<'_, '_>) -> bool
    requires { length names.now < length reset.old }
    ensures twice { result ≡ marks_twice reset.old (sets_on names.now (form_said form.entry)) }
    ensures added { result ≡ false → reset.new ≡ all_marked reset.old (sets_on names.now (form_said form.entry)) }
{
    match form {
        Form::Reset { outs, .. } => adds_twice(names, reset, outs),
        _ => false,
    }
}
