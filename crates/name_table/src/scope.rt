//! A scope is a list of variables with different names, over which letters and words run.

ghost use Rattle.std.specs.Prelude.{◌≡◌, ◌<◌, ◌≤◌, ℕ, List, true, length, map, nat_eq, slice_get, vec_len, All, IfOk};
ghost use Rattle.std.specs.List.{IsDistinct};
ghost use Rattle.std.specs.Option.{option_copied};
ghost use Rattle.name_table.specs.ScopeVars.{variables_of, chosen_of};
ghost use Rattle.name_table.specs.Variables.{names_of, are_different, IsScope};

use crate::domain::Domain;
use crate::names::{Names, VarId};
use crate::scope_var::ScopeVar;
use std::alloc::{AllocError, Global};
use std::marker::Model;

/// At most 16,384 variables with different names, in an order.
#[derive(Drop)]
pub struct Scope {
    vars: Vec<ScopeVar>,
}

impl Model for Scope {
    ghost use Rattle.std.specs.Prelude.{List, map};
    ghost use Rattle.name_table.specs.Variables.{Variable, IsScope};

    ghost Value = { List Variable };

    ghost view = { λ s. map (λ v. record { name = v.name.items; values = v.domain }) s.vars.items };

    ghost invariant = { λ s. IsScope (map (λ v. record { name = v.name.items; values = v.domain }) s.vars.items) };
}

impl Clone for Scope {
    ghost use Rattle.std.specs.Prelude.{◌≡◌};

    ghost is_clone = { λ scope copy. copy ≡ scope };

    fn clone(&self) -> Result<Scope, AllocError> {
        let vars = self.vars.clone()?;
        Ok(Scope { vars })
    }
}

impl Scope {
    /// The scope of the variables of these numbers, in their order.
    pub fn of(alloc: Global, names: &Names, vars: &[VarId]) -> Result<Scope, AllocError>
        requires known { All (λ var. var.0 < length names.now) vars.now }
        requires different { IsDistinct nat_eq (map (λ var. var.0) vars.now) }
        ensures { IfOk result (λ scope. scope ≡ chosen_of names.now (map (λ var. var.0) vars.now)) }
    {
        let chosen = names.chosen(alloc, vars)?;
        Ok(Scope::of_vars(chosen))
    }

    /// The scope of these variables, in this order.
    pub fn of_vars(vars: Vec<ScopeVar>) -> Scope
        requires few { vec_len vars ≤ 16384 }
        requires different { are_different (names_of (variables_of vars.items)) ≡ true }
        ensures { result ≡ variables_of vars.items }
    {
        Scope { vars }
    }

    /// How many variables there are.
    pub fn len(&self) -> u32
        ensures len { result ≡ length self.now }
        ensures good { IsScope self.now }
    {
        self.vars.len() as u32
    }

    /// The name of the variable at a place.
    pub fn name(&self, k: u32) -> Option<&[u8]>
        ensures { option_copied result ≡ slice_get (names_of self.now) k }
    {
        let var = self.vars.get(k as usize)?;
        Some(var.name.as_slice())
    }

    /// The domain of the variable at a place.
    pub fn domain(&self, k: u32) -> Option<&Domain>
        ensures { option_copied result ≡ slice_get (map (λ v. v.values) self.now) k }
    {
        let var = self.vars.get(k as usize)?;
        Some(&var.domain)
    }
}
