//! The third pass over the text of a network.

ghost use Rattle.std.specs.Prelude.{◌≡◌, Err, length, All, OnOk, OnErr};
ghost use Rattle.lex_core.specs.LogicalLines.{logical_lines};
ghost use Rattle.net_model.specs.Conditions.{MeetsConditions};
ghost use Rattle.net_model.specs.Faults.{Finds};
ghost use Rattle.net_model.specs.Forms.{apart, words_of};
ghost use Rattle.net_model.specs.Nets.{net_of};
ghost use Rattle.net_model.specs.NetTexts.{text_in, net_with};
ghost use Rattle.net_model.specs.SoundNets.{HasKnownSignals};
ghost use Rattle.net_model.specs.Spellings.{domain_at};
ghost use Rattle.blifmv_lines.specs.Said.{texts};
ghost use Rattle.blifmv_signals.specs.SignalFaults.{Known, IsKnown, signal_fault};
ghost use Rattle.blifmv_signals.specs.Marked.{nothing_above, marked_fault};

use crate::above::Above;
use crate::line::take_line;
use crate::whole::Whole;
use blifmv_lines::fill_words;
use lex_core::{Line, Lines};
use name_table::Names;
use net_model::{Net, TextFault};
use std::alloc::{AllocError, Global};

/// Tests how the signals of a text's network are driven, reset and used. The first line with a fault is told: one that
/// drives or resets a signal again (`DrivenTwice`), that uses a signal which nothing drives (`Undriven`), that resets by
/// what isn't constant or sets no latch (`ResetNotConstant`), or the first line of outputs, where the network breaks the
/// condition on `Acc` (`AccShape`); of two of these on one line the first. The net is what the first two passes give.
pub fn check_signals(alloc: Global, bytes: &[u8], net: &Net) -> Result<(), TextFault>
    requires known { HasKnownSignals (net_of net.now) }
    requires said { net_of net.now ≡ net_with (net_of net.now).names (text_in bytes.now) }
    requires latches { All (λ latch. length (domain_at (net_of net.now).names latch.input) ≡ length (domain_at (net_of net.now).names latch.output)) (net_of net.now).latches }
    ensures fault { (known : Known) → IsKnown (net_of net.now) (text_in bytes.now) known → Finds result (signal_fault (net_of net.now) known bytes.now) }
    ensures conditions { OnOk result (MeetsConditions (net_of net.now)) }
{
    match Whole::of(alloc, net) {
        Ok(whole) => check_lines(alloc, bytes, &net.names, &whole),
        Err(AllocError) => Err(TextFault::Memory),
    }
}

fn check_lines(alloc: Global, bytes: &[u8], names: &Names, whole: &Whole) -> Result<(), TextFault>
    ensures { Finds result (marked_fault names.now whole.now (nothing_above names.now) (logical_lines bytes.now)) }
{
    let mut above = match Above::none(alloc, names) {
        Ok(above) => above,
        Err(AllocError) => return Err(TextFault::Memory),
    };
    let mut words = Vec::new(alloc);
    let mut lines = Lines::new(bytes);
    while let Some(line) = lines.next_line() {
        fill(&mut words, &line)?;
        if let Some(kind) = take_line(names, whole, &mut above, words.as_slice()) {
            return Err(TextFault::At {
                line: line.number(),
                kind,
            });
        }
    }
    Ok(())
}

fn fill<'a>(words: &mut Vec<&'a [u8]>, line: &Line<'a>) -> Result<(), TextFault>
    ensures ok { OnOk result (texts words.new.items ≡ apart (words_of line.now)) }
    ensures err { OnErr result (result ≡ Err TextFault.Memory) }
{
    match fill_words(words, line) {
        Ok(()) => Ok(()),
        Err(AllocError) => Err(TextFault::Memory),
    }
}
