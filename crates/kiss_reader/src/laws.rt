//! What it means that a text is read.

ghost use Rattle.std.specs.Prelude.{◌≡◌, ◌↔◌, ℕ, List, None};
ghost use Rattle.net_model.specs.Machines as machines;
ghost use Rattle.net_model.specs.KissTexts.{StandsForMachine};
ghost use Rattle.kiss_reader.specs.KissFaults.{kiss_fault, StandsWithinLimits};

/// A text has no fault exactly where it stands for a machine within the limits.
pub fn machines_without_fault()
    ensures { (bytes : List ℕ) → (kiss_fault bytes ≡ None) ↔ StandsWithinLimits bytes }
{}

/// Bytes stand for one machine at most.
pub fn bytes_stand_for_one_machine()
    ensures { (bytes : List ℕ) (machine other : machines.Machine) → StandsForMachine bytes machine → StandsForMachine bytes other → machine ≡ other }
{}
