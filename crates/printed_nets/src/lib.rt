//! Laws of printed automata: the text of an automaton stands for a network, and that network has the automaton's letters
//! and language. Each is a clause of a function here, which has nothing to do.
#![tactic(auto)]

ghost use Rattle.std.specs.Prelude.{◌≡◌, ◌↔◌, ℕ, List};
ghost use Rattle.net_model.specs.Words.{Word};
ghost use Rattle.net_model.specs.Listings.{Listing, ListingWords};
ghost use Rattle.net_model.specs.NetTexts.{StandsForNet};
ghost use Rattle.net_model.specs.NetLanguages.{letters_of, NetWords, StandsForAutomaton};
ghost use Rattle.net_model.specs.Files.{Means};
ghost use Rattle.net_model.specs.Written.{IsTextName};
ghost use Rattle.net_model.specs.Printed.{IsPrintable, printed_text};
ghost use Rattle.printed_nets.specs.PrintedNets.{printed_net};

/// The printed text of an automaton, under any model name, stands for a network, which is an automaton over the same
/// letters.
pub fn printed_texts_stand_for_networks()
    ensures network { (name : List ℕ) (auto : Listing) → IsTextName name → IsPrintable auto
        → StandsForNet (printed_text name auto) (printed_net auto) }
    ensures automaton { (name : List ℕ) (auto : Listing) → IsTextName name → IsPrintable auto
        → StandsForAutomaton (printed_text name auto) auto.vars }
{}

/// That network has the automaton's letters and words.
pub fn printed_networks_are_their_automata()
    ensures letters { (auto : Listing) → letters_of (printed_net auto) ≡ auto.vars }
    ensures words { (auto : Listing) → IsPrintable auto → (word : Word)
        → NetWords (printed_net auto) word ↔ ListingWords auto word }
{}

/// So the text, read as that of a network, means the automaton's language.
pub fn printed_texts_mean_their_automata()
    ensures { (name : List ℕ) (auto : Listing) → IsTextName name → IsPrintable auto → (word : Word)
        → Means (printed_text name auto) auto.vars word ↔ ListingWords auto word }
{}
