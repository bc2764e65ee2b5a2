//! Prints a deterministic automaton.

ghost use Rattle.std.specs.Prelude.{◌≡◌, ◌≤◌, ◌<◌, ◌^◌, ◌↔◌, ◌⊎◌, ◌++◌, [], ◌∷◌, ℕ, IsTrue, map, codes, length, All, IfOk, OnOk, OnErr};
ghost use Rattle.std.specs.List.{flat_map};
ghost use Rattle.io_core.specs.Causes.{Rose};
ghost use Rattle.io_core.specs.Gained.{gained, GainsFrontOf};
ghost use Rattle.net_model.specs.Words.{Letter, Word};
ghost use Rattle.net_model.specs.Listings.{steps};
ghost use Rattle.net_model.specs.NetLanguages.{StandsForAutomaton};
ghost use Rattle.net_model.specs.Files.{Means};
ghost use Rattle.net_model.specs.Written.{IsTextName};
ghost use Rattle.net_model.specs.Printed.{line_bytes, mark_lines, printed_text};
ghost use Rattle.mv_encoding.specs.Layouts.{levels_of};
ghost use Rattle.det_core.specs.Automata.{AreGuardsValid, MeetsRule, ReadsAlone};
ghost use Rattle.det_core.specs.Languages.{letters_of, HasLetters};
ghost use Rattle.aut_format.specs.Rows.{listing_of_det, HasStep, HaveTextNames};

use crate::fields::push_field;
use crate::letters::{push_domains, push_inputs, push_table_head};
use crate::lines::{push_mark_line, push_states_line};
use crate::rows::push_rows;
use det_core::Det;
use io_core::{Sink, WriteFault, write_all};
use mv_encoding::Coding;
use node_table::Space;
use std::alloc::AllocError;

/// Prints a deterministic automaton under this model name: its states in their order, and of each a row for each path of the
/// guard of each move. The text is built in memory first, so want of memory is one of the faults.
pub fn write_auto<O: Sink>(
    det: &Det,
    space: &Space,
    coding: &Coding,
    name: &[u8],
    out: &mut O,
) -> Result<(), WriteFault>
    requires name { IsTextName name.now }
    requires vars { HaveTextNames coding.now.scope }
    requires rule { MeetsRule space.now (letters_of coding.now) det.now }
    requires reads { ReadsAlone space.now (levels_of coding.now) det.now }
    ensures ok { OnOk result (O.contents out.new
        ≡ gained (O.contents out.old) (printed_text name.now (listing_of_det space.now coding.now det.now))) }
    ensures refused { OnErr result (GainsFrontOf (O.contents out.old) (O.contents out.new)
        (printed_text name.now (listing_of_det space.now coding.now det.now))) }

    // The text stands for an automaton over the same letters. Read as every file is, it means the automaton's language.
    ensures automaton { StandsForAutomaton (printed_text name.now (listing_of_det space.now coding.now det.now)) coding.now.scope }
    ensures meaning { (word : Word)
        → Means (printed_text name.now (listing_of_det space.now coding.now det.now)) coding.now.scope word
        ↔ HasLetters space.now coding.now det.now word }

    // Its rows lead by a letter just where a move does at the letter's bits, so to one state at most.
    ensures steps { (k : ℕ) (letter : Letter) (target : ℕ)
        → IsTrue (steps (listing_of_det space.now coding.now det.now) k letter target)
        ↔ HasStep space.now coding.now det.now k letter target }
    ensures once { (k : ℕ) (letter : Letter) (target other : ℕ)
        → IsTrue (steps (listing_of_det space.now coding.now det.now) k letter target)
        → IsTrue (steps (listing_of_det space.now coding.now det.now) k letter other) → target ≡ other }
    ensures later { O.faults out.old ≤ O.faults out.new }
    ensures more { O.wants out.old ≤ O.wants out.new }
    ensures failed { result ≡ Err WriteFault.Failed → Rose (O.faults out.old) (O.faults out.new) }
    ensures memory { result ≡ Err WriteFault.Memory
        → (O.contents out.new ≡ O.contents out.old) ⊎ Rose (O.wants out.old) (O.wants out.new) }
{
    // There is a state 0, and a number tells how many there are.
    let _count = det.states();
    let Ok(text) = auto_text(det, space, coding, name) else {
        return Err(WriteFault::Memory);
    };
    write_all(out, &text)
}

/// The text that `write_auto` prints.
pub fn auto_text(
    det: &Det,
    space: &Space,
    coding: &Coding,
    name: &[u8],
) -> Result<Vec<u8>, AllocError>
    requires { All (λ s. AreGuardsValid space.now s.moves) det.now }
    ensures { IfOk result (λ text. text.items ≡ printed_text name.now (listing_of_det space.now coding.now det.now)) }
{
    let scope = coding.scope();
    let mut text = Vec::new(space.allocator());
    push_model(&mut text, name)?;
    push_inputs(&mut text, scope)?;
    text.extend_from_slice(b".outputs Acc\n")?;
    push_domains(&mut text, scope)?;
    push_states_line(&mut text, det.states() as usize)?;
    text.extend_from_slice(b".latch NS CS\n.reset CS\ns0\n.table CS -> Acc\n")?;
    push_marks(&mut text, det)?;
    push_table_head(&mut text, scope)?;
    push_rows(&mut text, det, space, coding)?;
    text.extend_from_slice(b".end\n")?;
    Ok(text)
}

// The line with the name of the model.
fn push_model(text: &mut Vec<u8>, name: &[u8]) -> Result<(), AllocError>
    ensures { OnOk result (text.new.items ≡ text.old.items ++ line_bytes (codes ".model" ∷ name.now ∷ [])) }
{
    text.extend_from_slice(b".model")?;
    push_field(text, name)?;
    text.push(b'\n')?;
    Ok(())
}

// For each state whether it accepts, a line for each.
fn push_marks(text: &mut Vec<u8>, det: &Det) -> Result<(), AllocError>
    ensures { OnOk result (text.new.items
        ≡ text.old.items ++ flat_map line_bytes (mark_lines 0 (map (λ s. s.accepting) det.now))) }
{
    for state in 0..det.states() {
        push_mark_line(text, state as usize, det.accepting(state))?;
    }
    Ok(())
}
