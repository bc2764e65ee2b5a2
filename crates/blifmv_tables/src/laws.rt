//! What it means that the second pass finds no fault.

ghost use Rattle.std.specs.Prelude.{◌≡◌, ◌↔◌, ℕ, List, None, true};
ghost use Rattle.net_model.specs.Words.{Scope};
ghost use Rattle.net_model.specs.NetTexts.{text_in, rows_stand};
ghost use Rattle.blifmv_tables.specs.Drafts.{latches_fit};
ghost use Rattle.blifmv_tables.specs.RowFaults.{row_fault};

/// Rows and latches have no fault exactly where each row and default stands, and each latch fits.
pub fn rows_without_fault()
    ensures { (vars : Scope) (bytes : List ℕ) → (row_fault vars bytes ≡ None) ↔ ((rows_stand vars None (text_in bytes) ≡ true) × (latches_fit vars (text_in bytes) ≡ true)) }
{}
