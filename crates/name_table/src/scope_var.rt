//! A variable of a scope.

use crate::domain::Domain;
use std::alloc::AllocError;

/// A variable by itself, with its name and its domain.
#[derive(Drop)]
pub struct ScopeVar {
    pub name: Vec<u8>,
    pub domain: Domain,
}

impl Clone for ScopeVar {
    ghost use Rattle.std.specs.Prelude.{◌≡◌};
    ghost use Rattle.name_table.specs.ScopeVars.{variable_of};

    ghost is_clone = { λ var copy. variable_of copy ≡ variable_of var };

    fn clone(&self) -> Result<ScopeVar, AllocError> {
        let alloc = *self.name.allocator();
        let name = self.name.as_slice().to_vec(alloc)?;
        let domain = self.domain.clone()?;
        Ok(ScopeVar { name, domain })
    }
}
