//! What follows for a frame that fits its problem, as a function that does nothing.

ghost use Rattle.std.specs.Prelude.{Option};
ghost use Rattle.mv_encoding.specs.Spots.{AreLaid};
ghost use Rattle.net_model.specs.Problems.{File, Problem, IsBuilt};
ghost use Rattle.net_model.specs.declared.refusal.Slot.{Slot};
ghost use Rattle.node_table.specs.Table.{Table};
ghost use Rattle.net_frame.specs.Frames.{Frame, spots_in, FitsProblem};

/// The levels of each slot's letters exist, so `Frame::valid` can be asked for each slot.
pub fn letters_are_laid()
    ensures { (t : Table) (problem : Problem) (third : Option File) (frame : Frame) → IsBuilt problem → FitsProblem t problem third frame → (slot : Slot) → AreLaid t (spots_in frame slot).letters }
{}
