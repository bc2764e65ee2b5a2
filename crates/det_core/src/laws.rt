//! What holds of every automaton, as functions that do nothing.

ghost use Rattle.std.specs.Prelude.{◌≡◌, ◌↔◌, Bool, true, List, All};
ghost use Rattle.node_table.specs.Table.{Bits, Table, Grows};
ghost use Rattle.det_core.specs.Automata.{State, BitWord, AreGuardsValid, MeetsRule, has_word};
ghost use Rattle.det_core.specs.Languages.{WordsByRuns};

/// The words of an automaton that meets the rule on guards are those of its runs.
pub fn words_are_those_of_runs()
    ensures { (t : Table) (letters : Bits → Bool) (det : List State) → MeetsRule t letters det → (word : BitWord) → (has_word t det word ≡ true) ↔ WordsByRuns t det word }
{}

/// An automaton keeps its words, and the rule on guards, when the space grows.
pub fn automata_stay_when_spaces_grow()
    ensures words { (before after : Table) (det : List State) → Grows before after → All (λ s. AreGuardsValid before s.moves) det → (word : BitWord) → has_word after det word ≡ has_word before det word }
    ensures rule { (before after : Table) (letters : Bits → Bool) (det : List State) → Grows before after → MeetsRule before letters det → MeetsRule after letters det }
{}
