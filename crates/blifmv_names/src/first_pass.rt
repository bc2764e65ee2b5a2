//! The first pass over the text of a network.

ghost use Rattle.std.specs.Prelude.{◌≡◌, ◌≤◌, [], true, false, length, Err, IfOk, IfSome, IfNone, OnOk, OnErr};
ghost use Rattle.lex_core.specs.LogicalLines.{logical_lines};
ghost use Rattle.net_model.specs.Faults.{Finds};
ghost use Rattle.net_model.specs.Forms.{apart, words_of};
ghost use Rattle.net_model.specs.NetTexts.{text_in, variables_in, LinesSay};
ghost use Rattle.blifmv_lines.specs.Said.{texts};
ghost use Rattle.blifmv_names.specs.Signals.{signals_from};
ghost use Rattle.blifmv_names.specs.LineFaults.{is_model_word, begins_model, begins_model_words, first_line, first_fault, nothing_above, line_fault};

use crate::line_fault::LineFault;
use crate::place::Place;
use crate::signal_table::SignalTable;
use crate::take_line::take_line;
use blifmv_lines::{directive_of, fill_words};
use lex_core::{Line, Lines};
use name_table::Names;
use net_model::{Directive, TextFault, TextKind};
use std::alloc::{AllocError, Global};

/// The names of a network's text, in the order of first appearance, with their domains. On `Ok` the lines of the text
/// are as they should be, but for what rows spell and how signals are driven. Else the fault of the first line with one
/// is told: that the text begins with no model, or one of the kinds `UnknownDirective`, `BadCount`, `RowWidth`,
/// `TwiceDefault`, `Limit`, `Hierarchy`, `BadName` and `BadDomain`, the first of them that the line has.
pub fn read_names(alloc: Global, bytes: &[u8]) -> Result<Names, TextFault>
    ensures fault { Finds result (line_fault bytes.now) }
    ensures lines { IfOk result (λ names. LinesSay bytes.now (text_in bytes.now)) }
    ensures names { IfOk result (λ names. names ≡ variables_in (text_in bytes.now)) }
    ensures few { IfOk result (λ names. length names ≤ 4096) }
{
    if let Some(line) = line_without_model(bytes) {
        return Err(TextFault::At {
            line,
            kind: TextKind::NoModel,
        });
    }
    let signals = read_signals(alloc, bytes)?;
    match signals.names(alloc) {
        Ok(names) => Ok(names),
        Err(AllocError) => Err(TextFault::Memory),
    }
}

// The line of the first word of a text that doesn't begin with a model, and line 1 where there is no word.
fn line_without_model(bytes: &[u8]) -> Option<u64>
    ensures none { IfNone result (begins_model (logical_lines bytes.now) ≡ true) }
    ensures line { IfSome result (λ line. (begins_model (logical_lines bytes.now) ≡ false) × (line ≡ first_line (logical_lines bytes.now))) }
{
    let mut lines = Lines::new(bytes);
    let Some(line) = lines.next_line() else {
        return Some(1);
    };
    if begins_model(&line) {
        None
    } else {
        Some(line.number())
    }
}

fn begins_model(line: &Line<'_>) -> bool
    ensures { result ≡ begins_model_words (words_of line.now) }
{
    let Some(word) = line.word(0) else {
        return false;
    };
    is_model_word(directive_of(word))
}

fn is_model_word(directive: Directive) -> bool
    ensures { result ≡ is_model_word directive }
{
    match directive {
        Directive::Model => true,
        _ => false,
    }
}

// The signals of a text that begins with a model.
fn read_signals(alloc: Global, bytes: &[u8]) -> Result<SignalTable, TextFault>
    ensures fault { Finds result (first_fault nothing_above [] (logical_lines bytes.now)) }
    ensures signals { IfOk result (λ signals. signals ≡ signals_from [] (text_in bytes.now)) }
    ensures few { IfOk result (λ signals. length signals ≤ 4096) }
{
    let mut words = Vec::new(alloc);
    let mut lines = Lines::new(bytes);
    let mut signals = SignalTable::new(alloc);
    let mut place = Place {
        begun: false,
        ended: false,
        width: None,
        rows: 0,
    };
    while let Some(line) = lines.next_line() {
        fill(&mut words, &line)?;
        place = match take_line(alloc, place, &mut signals, words.as_slice()) {
            Ok(next) => next,
            Err(LineFault::Kind(kind)) => {
                return Err(TextFault::At {
                    line: line.number(),
                    kind,
                });
            }
            Err(LineFault::Memory) => return Err(TextFault::Memory),
        };
    }
    Ok(signals)
}

fn fill<'a>(words: &mut Vec<&'a [u8]>, line: &Line<'a>) -> Result<(), TextFault>
    ensures ok { OnOk result (texts words.new.items ≡ apart (words_of line.now)) }
    ensures err { OnErr result (result ≡ Err TextFault.Memory) }
{
    match fill_words(words, line) {
        Ok(()) => Ok(()),
        Err(AllocError) => Err(TextFault::Memory),
    }
}
