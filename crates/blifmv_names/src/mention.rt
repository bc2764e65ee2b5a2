//! The signals that a line mentions.

ghost use Rattle.std.specs.Prelude.{◌≤◌, ◌++◌, length, IfOk};
ghost use Rattle.blifmv_lines.specs.Said.{texts, form_said, listed_names};
ghost use Rattle.blifmv_names.specs.Signals.{all_mentioned, with_mentions};
ghost use Rattle.blifmv_names.specs.LineFaults.{MentionsAre};

use crate::signal_table::SignalTable;
use blifmv_lines::{Form, ListedNames};
use std::alloc::AllocError;

/// The most signals of a text.
const MOST_SIGNALS: usize = 4_096;

// Puts the signals of a line among the others, and says whether they are few enough. It stops where they aren't.
pub(crate) fn mention(signals: &mut SignalTable, form: Form<'_, '_>) -> Result<bool, AllocError>
    requires { length signals.old ≤ 4096 }
    ensures { IfOk result (λ few. MentionsAre (with_mentions signals.old (form_said form.entry)) signals.new few) }
{
    match form {
        Form::Inputs(names) => mention_all(signals, names),
        Form::Outputs(names) => mention_all(signals, names),
        Form::Domains { names, .. } => mention_listed(signals, names),
        Form::Table { ins, outs } => mention_both(signals, ins, outs),
        Form::Reset { ins, outs } => mention_both(signals, ins, outs),
        Form::Latch { input, output } => mention_all(signals, &[input, output]),
        Form::Model(_) => Ok(true),
        Form::Default(_) => Ok(true),
        Form::End => Ok(true),
        Form::Row(_) => Ok(true),
    }
}

fn mention_all(signals: &mut SignalTable, names: &[&[u8]]) -> Result<bool, AllocError>
    requires { length signals.old ≤ 4096 }
    ensures { IfOk result (λ few. MentionsAre (all_mentioned signals.old (texts names.now)) signals.new few) }
{
    let mut left = names;
    while let [name, more @ ..] = left {
        signals.mention(name)?;
        if signals.len() > MOST_SIGNALS {
            return Ok(false);
        }
        left = more;
    }
    Ok(true)
}

fn mention_listed(signals: &mut SignalTable, names: &[&[u8]]) -> Result<bool, AllocError>
    requires { length signals.old ≤ 4096 }
    ensures { IfOk result (λ few. MentionsAre (all_mentioned signals.old (listed_names (texts names.now))) signals.new few) }
{
    let mut left = ListedNames::new(names);
    while let Some(name) = left.next_name() {
        signals.mention(name)?;
        if signals.len() > MOST_SIGNALS {
            return Ok(false);
        }
    }
    Ok(true)
}

fn mention_both(
    signals: &mut SignalTable,
    ins: &[&[u8]],
    outs: &[&[u8]],
) -> Result<bool, AllocError>
    requires { length signals.old ≤ 4096 }
    ensures { IfOk result (λ few. MentionsAre (all_mentioned signals.old (texts ins.now ++ texts outs.now)) signals.new few) }
{
    if !mention_all(signals, ins)? {
        return Ok(false);
    }
    let few = mention_all(signals, outs)?;
    Ok(few)
}
