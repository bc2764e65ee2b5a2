//! What the codes of letters are, as a function that does nothing.

ghost use Rattle.std.specs.Prelude.{◌≡◌, ◌↔◌, ℕ, true, List};
ghost use Rattle.std.specs.List.{range_with_len, AllPairs};
ghost use Rattle.net_model.specs.Words.{Scope, Letter, IsLetter};
ghost use Rattle.node_table.specs.Table.{Bits};
ghost use Rattle.bdd_ops.specs.Levels.{SameAt, SameOutside};
ghost use Rattle.name_table.specs.CodeBits.{bits_in};
ghost use Rattle.mv_encoding.specs.Layouts.{Layout, numbers_at, is_letter};
ghost use Rattle.mv_encoding.specs.Spots.{AreSpots, AreApart, variables_at, all_levels, spelled, spell_values};

/// Each letter over a scope has a code on the levels from any level on, and just one: bits have the same numbers exactly
/// where they agree at these levels. The numbers of bits are a letter or a code past the end of some domain.
pub fn codes_are_of_letters()
    ensures each { (scope : Scope) (first : ℕ) (letter : Letter) → IsLetter scope letter → (bits : Bits) × (numbers_at scope first bits ≡ letter) }
    ensures one { (scope : Scope) (first : ℕ) (u v : Bits) → (numbers_at scope first u ≡ numbers_at scope first v) ↔ SameAt (range_with_len first (bits_in scope)) u v }
    ensures letters { (scope : Scope) (letter : Letter) → (is_letter scope letter ≡ true) ↔ IsLetter scope letter }
{}

/// Values have codes at spots that stand apart, whatever the bits elsewhere are, and just one each: bits spell the same
/// numbers exactly where they agree at the levels of the spots.
pub fn apart_codes_are_of_values()
    ensures each { (spots : List Layout) → AreSpots spots → AllPairs AreApart spots → (values : List ℕ) → IsLetter (variables_at spots) values → (bits : Bits) → (u : Bits) × (spelled spots u ≡ values) × SameOutside (all_levels spots) u bits }
    ensures one { (spots : List Layout) → AreSpots spots → (u v : Bits) → (spelled spots u ≡ spelled spots v) ↔ SameAt (all_levels spots) u v }
    ensures letters { (spots : List Layout) → AreSpots spots → (bits : Bits) → (spell_values spots bits ≡ true) ↔ IsLetter (variables_at spots) (spelled spots bits) }
{}
