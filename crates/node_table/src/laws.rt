//! What holds of every space, as functions that do nothing. The laws are of tables as values, so a caller can use them for a
//! space as it was before some calls and as it is after them.

ghost use Rattle.std.specs.Prelude.{◌≡◌, ◌↔◌, ℕ};
ghost use Rattle.node_table.specs.Table.{Bits, Table, value_at, IsTable, IsValid, Grows};

/// Reduced ordered diagrams are canonical: in one space two refs are the same exactly where they have the
/// same value at all bits. So functions are compared by comparing refs.
pub fn equal_values_equal_refs()
    ensures { (t : Table) (f g : ℕ) → IsValid t f → IsValid t g → (f ≡ g) ↔ ((bits : Bits) → value_at t f bits ≡ value_at t g bits) }
{}

/// A space that grew into one that grew into a third has grown into the third. Each has grown into itself.
pub fn growth_is_transitive()
    ensures chain { (first second third : Table) → Grows first second → Grows second third → Grows first third }
    ensures same { (t : Table) → IsTable t → Grows t t }
{}
