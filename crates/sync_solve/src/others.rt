//! The words that a file hasn't.

ghost use Rattle.std.specs.Prelude.{◌≡◌, ◌≤◌, ℕ, IfOk, IfErr};
ghost use Rattle.node_table.specs.Table.{Grows};
ghost use Rattle.bdd_ops.specs.Meaning.{StandsFor};
ghost use Rattle.mv_encoding.specs.Spots.{all_levels, spell_values, AreLaid};
ghost use Rattle.net_model.specs.Problems.{file_of, IsSoundFile};
ghost use Rattle.net_frame.specs.Frames.{spots_in, IsFilePlaced};
ghost use Rattle.frame_words.specs.Levels.{LiesAround};
ghost use Rattle.det_core.specs.Automata.{MeetsRule, ReadsAlone};
ghost use Rattle.det_core.specs.Faults.{IsLimit};
ghost use Rattle.sync_solve.specs.Safe.{HasOthers};

use crate::machine::Machine;
use det_core::{Det, SolveFault, complement};
use net_frame::Frame;
use net_model::{File, Mode, Slot};
use node_table::{Ref, Space};
use subset_build::determinise;

/// The automaton that has, of the words over a file's letters, just those that the file hasn't. The file may have several runs
/// on a word, so it is made deterministic before it is turned round.
pub(crate) fn others(
    space: &mut Space,
    frame: &Frame,
    slot: Slot,
    file: &File,
) -> Result<Det, SolveFault>
    requires mode { frame.now.mode ≡ Mode.Sync }
    requires sound { IsSoundFile (file_of file.now) }
    requires placed { IsFilePlaced space.old (file_of file.now) (spots_in frame.now slot) }
    requires order { (start : ℕ) × (start ≤ space.old.levels) × LiesAround space.old start (spots_in frame.now slot) }
    ensures others { IfOk result (HasOthers space.new (file_of file.now) (spots_in frame.now slot).letters) }
    ensures rule { IfOk result (MeetsRule space.new (spell_values (spots_in frame.now slot).letters)) }
    ensures reads { IfOk result (ReadsAlone space.new (all_levels (spots_in frame.now slot).letters)) }
    ensures grows { Grows space.old space.new }
    ensures levels { space.new.levels ≡ space.old.levels }
    ensures limit { IfErr result (IsLimit space.new (λ states. Unit {0})) }
{
    let machine = Machine::of_file(space, frame, slot, file)?;
    let valid = letters(space, frame, slot)?;
    let det = determinise(
        space,
        &machine.parts,
        machine.init,
        machine.acc,
        frame.letters(slot),
        frame.back(slot),
        valid,
    )?;
    Ok(complement(det))
}

// The letters of a file.
fn letters(space: &mut Space, frame: &Frame, slot: Slot) -> Result<Ref, SolveFault>
    requires { AreLaid space.old (spots_in frame.now slot).letters }
    ensures ok { IfOk result (λ r. StandsFor space.new r (spell_values (spots_in frame.now slot).letters)) }
    ensures grows { Grows space.old space.new }
    ensures levels { space.new.levels ≡ space.old.levels }
    ensures limit { IfErr result (IsLimit space.new (λ states. states ≡ 0)) }
{
    match frame.valid(space, slot) {
        Ok(valid) => Ok(valid),
        Err(fault) => Err(SolveFault::stopped(space, fault, 0)),
    }
}
