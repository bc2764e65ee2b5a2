//! Why names make no problem.

use std::alloc::AllocError;

/// A file of a problem, by its part in the equation.
#[derive(Clone, Copy, Debug, PartialEq, Eq)]
pub enum Slot {
    F,
    S,
    X,
}

/// Why two files and two lists of names make no problem. Each but the last two carries the name, as bytes.
#[derive(Debug, PartialEq, Eq, Drop)]
pub enum NameRefusal {
    /// It is no letter of F or of S, and no action of theirs.
    UnknownName(Vec<u8>),
    /// It stands twice in its list.
    RepeatedName(Vec<u8>),
    /// It stands among the inputs and among the outputs.
    InBoth(Vec<u8>),
    /// Automaton files use it themselves.
    ReservedName(Vec<u8>),
    /// The variable has one domain in F and another one in S.
    DomainDiffers(Vec<u8>),
    /// X has not the letters that were asked for.
    LettersDiffer(Vec<u8>),
    /// The file is no automaton of one input variable, as parallel mode wants it.
    NotOneVariable(Slot),
    Memory,
}

impl From<AllocError> for NameRefusal {
    ghost use Rattle.std.specs.Prelude.{◌≡◌};
    ghost use Rattle.net_model.specs.declared.refusal.NameRefusal.TheVariants.{Memory};

    ghost from_gives = { λ error result. result ≡ Memory };

    fn from(_error: AllocError) -> Self {
        NameRefusal::Memory
    }
}
