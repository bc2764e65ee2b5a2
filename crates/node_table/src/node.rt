//! A node of a diagram, and the ref by which it is named.

ghost use Rattle.std.specs.Prelude.{◌≡◌};

use std::marker::Model;

/// The greatest number of levels that a `Space` can have.
pub const MAX_LEVELS: u32 = 8_192;

/// A diagram of a `Space`, named by its root: 0 and 1 are the two constants, and the number of a node is
/// by two above the number of older nodes. A ref means nothing without the `Space` that answered it.
#[derive(Clone, Copy, PartialEq, Eq, Hash, Debug)]
pub struct Ref(u64);

impl Model for Ref {
    ghost use Rattle.std.specs.Prelude.{ℕ};

    ghost Value = { ℕ };

    ghost view = { λ r. r.0 };

    ghost inverse = { λ n. record { 0 = n } };
}

impl Ref {
    /// The constant 0, in every `Space`.
    pub const ZERO: Ref = Ref(0);

    /// The constant 1, in every `Space`.
    pub const ONE: Ref = Ref(1);

    /// The ref of this number.
    pub(crate) fn numbered(number: u64) -> Ref
        ensures { result ≡ number }
    {
        Ref(number)
    }

    /// The number of this ref.
    pub(crate) fn number(self) -> u64
        ensures { result ≡ self }
    {
        self.0
    }
}

/// A node: the level whose bit it asks, and its two ends, `lo` for the bit 0 and `hi` for the bit 1.
#[derive(Clone, Copy, PartialEq, Eq, Hash)]
pub struct Node {
    pub level: u32,
    pub lo: Ref,
    pub hi: Ref,
}

// A table of many million nodes has to fit in memory.
const _: () = prove!(size_of::<Node>() <= 24);
