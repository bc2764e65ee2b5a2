//! A table of names numbers variables in the order in which they were added.

ghost use Rattle.std.specs.Prelude.{◌≡◌, ◌<◌, ◌≤◌, ◌↔◌, ◌++◌, [], ◌∷◌, ℕ, List, Some, true, false, length, map, nat_eq, slice_get, vec_len, All, IsTrue, IfOk, IfErr, IfSome, OnOk, OnErr};
ghost use Rattle.std.specs.List.{IsDistinct};
ghost use Rattle.std.specs.Option.{option_copied, option_map};
ghost use Rattle.name_table.specs.Causes.{NameRefused};
ghost use Rattle.name_table.specs.ScopeVars.{variables_of, variable_at, chosen_of};
ghost use Rattle.name_table.specs.Variables.{Variable, names_of, is_in, place_of, are_different, IsTable, IsAdded, IsNew};

use crate::domain::Domain;
use crate::fault::NameFault;
use crate::scope_var::ScopeVar;
use indexmap::IndexMap;
use std::alloc::{AllocError, Global};
use std::marker::Model;

/// The most names of a table.
const MOST_NAMES: usize = 4_096;
/// The most values of a variable of a table.
const MOST_VALUES: u32 = 65_536;

/// The number of a variable in its table.
#[derive(Clone, Copy, Debug, PartialEq, Eq)]
pub struct VarId(pub u32);

/// A table of at most 4,096 different names, each with its domain.
#[derive(Drop)]
pub struct Names {
    table: IndexMap<Vec<u8>, Domain>,
}

impl Model for Names {
    ghost use Rattle.std.specs.Prelude.{List, map};
    ghost use Rattle.name_table.specs.Variables.{Variable, IsTable};

    ghost Value = { List Variable };

    ghost view = { λ n. map (λ e. record { name = e.0.items; values = e.1 }) n.table.entries };

    ghost invariant = { λ n. IsTable (map (λ e. record { name = e.0.items; values = e.1 }) n.table.entries) };
}

impl Names {
    /// A table without names.
    pub fn new(alloc: Global) -> Names
        ensures { result ≡ [] }
    {
        Names {
            table: IndexMap::new(alloc),
        }
    }

    /// Adds a name with its domain, and answers its number. A new name gets the number `len()`. A name that is known
    /// with the same domain keeps its number; the two domains are compared name by name. A refused name leaves the
    /// table as it was.
    pub fn add(&mut self, name: &[u8], domain: Domain) -> Result<VarId, NameFault>
        ensures ok { IfOk result (λ var. IsAdded self.old (record { name = name.now; values = domain }) self.new var.0) }
        ensures refused { IfErr result (NameRefused self.old (record { name = name.now; values = domain })) }
        ensures err { OnErr result (self.new ≡ self.old) }
    {
        match self.find(name) {
            None => self.add_new(name, domain),
            Some(var) => {
                if self.has_domain(var, &domain) {
                    Ok(var)
                } else {
                    Err(NameFault::DomainDiffers)
                }
            }
        }
    }

    fn add_new(&mut self, name: &[u8], domain: Domain) -> Result<VarId, NameFault>
        requires { is_in (names_of self.old) name.now ≡ false }
        ensures ok { IfOk result (λ var. IsNew self.old (record { name = name.now; values = domain }) self.new var.0) }
        ensures refused { IfErr result (NameRefused self.old (record { name = name.now; values = domain })) }
        ensures err { OnErr result (self.new ≡ self.old) }
    {
        let number = self.table.len();
        if number >= MOST_NAMES {
            return Err(NameFault::TooManyVars);
        }
        if domain.len() > MOST_VALUES {
            return Err(NameFault::TooManyValues);
        }
        let alloc = *self.table.allocator();
        let name = name.to_vec(alloc)?;
        self.push_new(name, domain)?;
        Ok(VarId(number as u32))
    }

    fn push_new(&mut self, name: Vec<u8>, domain: Domain) -> Result<(), AllocError>
        requires fresh { is_in (names_of self.old) name.items ≡ false }
        requires room { length self.old < 4096 }
        requires few { length domain ≤ 65536 }
        ensures ok { OnOk result (self.new ≡ self.old ++ record { name = name.items; values = domain } ∷ []) }
        ensures err { OnErr result (self.new ≡ self.old) }
    {
        self.table.insert(name, domain)?;
        Ok(())
    }

    // Whether the variable has this very domain.
    fn has_domain(&self, var: VarId, domain: &Domain) -> bool
        ensures { IsTrue result ↔ (slice_get (map (λ v. v.values) self.now) var.0 ≡ Some domain.now) }
    {
        match self.domain(var) {
            Some(had) => had.is_same(domain),
            None => false,
        }
    }

    /// The number of a name. It is found by its hash.
    pub fn find(&self, name: &[u8]) -> Option<VarId>
        ensures { option_map (λ var. var.0) result ≡ place_of (names_of self.now) name.now }
    {
        match self.table.get_index_of(name) {
            Some(place) => Some(VarId(place as u32)),
            None => None,
        }
    }

    /// How many names there are.
    pub fn len(&self) -> u32
        ensures len { result ≡ length self.now }
        ensures good { IsTable self.now }
    {
        self.table.len() as u32
    }

    /// The name of a variable.
    pub fn name(&self, var: VarId) -> Option<&[u8]>
        ensures { option_copied result ≡ slice_get (names_of self.now) var.0 }
    {
        let (name, _) = self.table.get_index(var.0 as usize)?;
        Some(name.as_slice())
    }

    /// The domain of a variable.
    pub fn domain(&self, var: VarId) -> Option<&Domain>
        ensures { option_copied result ≡ slice_get (map (λ v. v.values) self.now) var.0 }
    {
        let (_, domain) = self.table.get_index(var.0 as usize)?;
        Some(domain)
    }

    // The variables of these numbers, in their order.
    pub(crate) fn chosen(&self, alloc: Global, vars: &[VarId]) -> Result<Vec<ScopeVar>, AllocError>
        requires known { All (λ var. var.0 < length self.now) vars.now }
        requires different { IsDistinct nat_eq (map (λ var. var.0) vars.now) }
        ensures ok { IfOk result (λ chosen. variables_of chosen.items ≡ chosen_of self.now (map (λ var. var.0) vars.now)) }
        ensures few { IfOk result (λ chosen. vec_len chosen ≤ 4096) }
        ensures different { IfOk result (λ chosen. are_different (names_of (variables_of chosen.items)) ≡ true) }
    {
        let _ = &self.table;
        let mut chosen = Vec::new(alloc);
        for var in vars {
            let copy = self.variable(alloc, *var)?;
            chosen.push(copy)?;
        }
        Ok(chosen)
    }

    fn variable(&self, alloc: Global, var: VarId) -> Result<ScopeVar, AllocError>
        requires { var.0 < length self.now }
        ensures { IfOk result (λ copy. record { name = copy.name.items; values = copy.domain } ≡ variable_at self.now var.0) }
    {
        let (name, domain) = self.table.get_index(var.0 as usize).unwrap();
        let name = name.as_slice().to_vec(alloc)?;
        let domain = domain.clone()?;
        Ok(ScopeVar { name, domain })
    }
}
