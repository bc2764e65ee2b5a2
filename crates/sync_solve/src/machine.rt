//! A file as a relation on diagrams.

ghost use Rattle.std.specs.Prelude.{◌≡◌, IfOk, IfErr};
ghost use Rattle.node_table.specs.Table.{Grows};
ghost use Rattle.net_model.specs.Problems.{file_of, IsSoundFile};
ghost use Rattle.net_frame.specs.Frames.{spots_in, IsFilePlaced};
ghost use Rattle.det_core.specs.Faults.{IsLimit};
ghost use Rattle.sync_solve.specs.Files.{AreDiagrams};

use det_core::SolveFault;
use net_frame::Frame;
use net_model::{File, Mode, Slot};
use net_relation::{accepting, initial, relation_of};
use node_table::{Ref, Space};
use part_relation::Parts;

/// An automaton that may have several runs on a word: its steps in parts, and its initial and its accepting states.
#[derive(Drop)]
pub(crate) struct Machine {
    pub(crate) parts: Parts,
    pub(crate) init: Ref,
    pub(crate) acc: Ref,
}

impl Machine {
    /// The automaton of a file in its slot of the frame.
    pub(crate) fn of_file(
        space: &mut Space,
        frame: &Frame,
        slot: Slot,
        file: &File,
    ) -> Result<Machine, SolveFault>
        requires mode { frame.now.mode ≡ Mode.Sync }
        requires sound { IsSoundFile (file_of file.now) }
        requires placed { IsFilePlaced space.old (file_of file.now) (spots_in frame.now slot) }
        ensures ok { IfOk result (λ m. AreDiagrams space.new (file_of file.now) (spots_in frame.now slot) m.parts m.init m.acc) }
        ensures grows { Grows space.old space.new }
        ensures levels { space.new.levels ≡ space.old.levels }
        ensures limit { IfErr result (IsLimit space.new (λ states. states ≡ 0)) }
    {
        let parts = relation_of(space, frame, slot, file)?;
        let init = initial(space, frame, slot, file)?;
        let acc = accepting(space, frame, slot, file)?;
        Ok(Machine { parts, init, acc })
    }
}
