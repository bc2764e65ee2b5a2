//! Letters and words over a scope.

/// One value for each variable of a scope, in its order. A value is a place in the variable's domain, from 0.
#[derive(Debug, PartialEq, Eq, Drop)]
pub struct Letter {
    pub values: Vec<u32>,
}

/// A word: a letter for each position.
#[derive(Debug, PartialEq, Eq, Drop)]
pub struct Word {
    pub letters: Vec<Letter>,
}

/// The values that an entry of a row allows its variable.
#[derive(Debug, PartialEq, Eq, Drop)]
pub struct ValueSet {
    pub values: Vec<u32>,
}
