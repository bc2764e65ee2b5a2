//! What it means that no pass finds a fault.

ghost use Rattle.std.specs.Prelude.{◌↔◌, ℕ, List};
ghost use Rattle.blifmv_reader.specs.Told.{HasNoFault, StandsWithinLimits};

/// A text has no fault exactly where it stands for a network within the limits.
pub fn texts_without_fault()
    ensures { (bytes : List ℕ) → HasNoFault bytes ↔ StandsWithinLimits bytes }
{}
