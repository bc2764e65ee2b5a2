//! What it means that the first pass finds no fault.

ghost use Rattle.std.specs.Prelude.{◌≡◌, ◌↔◌, ℕ, List, None};
ghost use Rattle.blifmv_names.specs.LineFaults.{line_fault};
ghost use Rattle.blifmv_names.specs.Limits.{IsFaultless};

/// Lines have no fault exactly where they say a text within the limits, whose rows fit their tables.
pub fn lines_without_fault()
    ensures { (bytes : List ℕ) → (line_fault bytes ≡ None) ↔ IsFaultless bytes }
{}
