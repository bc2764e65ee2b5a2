//! Where the code of a variable stands.

/// The bits of one variable in the code of a letter.
#[derive(Clone, Copy)]
pub(crate) struct Field {
    /// How many bits stand before it.
    pub before: u32,
    /// How many bits it has.
    pub bits: u32,
    /// How many of its codes are values.
    pub values: u32,
}
