//! The two ways to compose, and the classes of solutions.

/// How two automata are composed.
#[derive(Clone, Copy, Debug, PartialEq, Eq)]
pub enum Mode {
    /// A letter gives a value to each variable, and all move together.
    Sync,
    /// A letter is one action, and those move that have it.
    Parallel,
}

/// Which solutions of the equation are looked for.
#[derive(Clone, Copy, Debug, PartialEq, Eq)]
pub enum Class {
    /// Every language of which the composition stays inside the specification.
    All,
}
