//! A domain is a list of different value names, and a value is a place in that list.

ghost use Rattle.std.specs.Prelude.{◌≡◌, ◌<◌, ◌≤◌, ◌↔◌, ℕ, List, length, map, slice_get, Some, IsTrue, IfOk, IfErr, OnOk, MatchOption, false, decimal};
ghost use Rattle.name_table.specs.Causes.{DomainRefused, NumberRefused};
ghost use Rattle.name_table.specs.Variables.{IsDomain, place_of, are_different, numbers};

use crate::fault::DomainFault;
use crate::name_set::NameSet;
use crate::number::{is_written, number_named};
use crate::value_name::ValueName;
use std::alloc::{AllocError, Global};
use std::marker::Model;
use std::rc::Rc;

/// The most names of a domain: the joint actions of two files always fit.
const MOST_VALUES: usize = 131_072;

/// A domain. It is a count alone where its names are the numbers from 0 up, and else keeps its names, in one list for all
/// its copies; so a copy costs nothing.
#[derive(Drop)]
pub struct Domain {
    values: Values,
}

#[derive(Drop)]
enum Values {
    Numbered(u32),
    Named(Rc<NameSet>),
}

impl Model for Domain {
    ghost use Rattle.std.specs.Prelude.{ℕ, List};
    ghost use Rattle.name_table.specs.DomainValues.{names_told};
    ghost use Rattle.name_table.specs.Variables.{IsDomain};

    ghost Value = { List (List ℕ) };

    ghost view = { λ d. names_told d.values };

    ghost invariant = { λ d. IsDomain (names_told d.values) };
}

impl Clone for Domain {
    ghost use Rattle.std.specs.Prelude.{◌≡◌};

    ghost is_clone = { λ domain copy. copy ≡ domain };

    fn clone(&self) -> Result<Domain, AllocError> {
        let values = match &self.values {
            Values::Numbered(count) => Values::Numbered(*count),
            Values::Named(names) => Values::Named(names.clone()?),
        };
        Ok(Domain { values })
    }
}

impl Domain {
    /// The domain with these value names, in this order. The list is refused where it is empty, else where a name
    /// stands twice, else where it has more than 131,072 names.
    pub fn of_names(alloc: Global, names: Vec<Vec<u8>>) -> Result<Domain, DomainFault>
        ensures ok { IfOk result (λ domain. domain ≡ map (λ n. n.items) names.items) }
        ensures good { IfOk result IsDomain }
        ensures refused { IfErr result (λ fault. DomainRefused (map (λ n. n.items) names.items) fault) }
    {
        if names.is_empty() {
            return Err(DomainFault::Empty);
        }
        let Some(set) = set_of(alloc, names)? else {
            return Err(DomainFault::Repeated);
        };
        if set.len() > MOST_VALUES {
            return Err(DomainFault::TooMany);
        }
        let domain = Domain::named(alloc, set)?;
        Ok(domain)
    }

    // Names that are the numbers from 0 up are kept as their count, which is compared as a number.
    fn named(alloc: Global, names: NameSet) -> Result<Domain, AllocError>
        requires { IsDomain names }
        ensures { IfOk result (λ domain. domain ≡ names) }
    {
        let count = names.len() as u32;
        if are_numbers(&names, count) {
            return Ok(Domain::counted(count));
        }
        let shared = Rc::new(alloc, names)?;
        Ok(Domain {
            values: Values::Named(shared),
        })
    }

    /// The domain of `n` values that are named by their numbers, 0, 1 and so on in decimal. No name is kept, so it
    /// takes no memory.
    pub fn numbered(_alloc: Global, n: u32) -> Result<Domain, DomainFault>
        ensures ok { IfOk result (λ domain. domain ≡ numbers n) }
        ensures good { OnOk result ((0 < n) × (n ≤ 131072)) }
        ensures refused { IfErr result (NumberRefused n) }
    {
        if n == 0 {
            return Err(DomainFault::Empty);
        }
        if n as usize > MOST_VALUES {
            return Err(DomainFault::TooMany);
        }
        Ok(Domain::counted(n))
    }

    fn counted(n: u32) -> Domain
        requires some { 0 < n }
        requires few { n ≤ 131072 }
        ensures { result ≡ numbers n }
    {
        Domain {
            values: Values::Numbered(n),
        }
    }

    /// How many values there are.
    pub fn len(&self) -> u32
        ensures len { result ≡ length self.now }
        ensures good { IsDomain self.now }
    {
        match &self.values {
            Values::Numbered(count) => *count,
            Values::Named(names) => names.len() as u32,
        }
    }

    /// The name of a value.
    pub fn name(&self, value: u32) -> Option<ValueName<'_>>
        ensures { result ≡ slice_get self.now value }
    {
        match &self.values {
            Values::Numbered(count) => name_below(*count, value),
            Values::Named(names) => {
                let name = names.get(value as usize)?;
                Some(ValueName::kept(name))
            }
        }
    }

    /// The value of a name. A count reads the number, and names that are kept are searched by their order.
    pub fn value_index(&self, name: &[u8]) -> Option<u32>
        ensures { result ≡ place_of self.now name.now }
    {
        match &self.values {
            Values::Numbered(count) => number_named(*count, name),
            Values::Named(names) => {
                let place = names.find(name)?;
                Some(place as u32)
            }
        }
    }

    /// Whether the two are the same names in the same order. Two counts are compared as numbers.
    pub fn is_same(&self, other: &Domain) -> bool
        ensures { IsTrue result ↔ (self.now ≡ other.now) }
    {
        match (&self.values, &other.values) {
            (Values::Numbered(count), Values::Numbered(other)) => count == other,
            (Values::Numbered(count), Values::Named(names)) => are_numbers(names, *count),
            (Values::Named(names), Values::Numbered(count)) => are_numbers(names, *count),
            (Values::Named(names), Values::Named(others)) => is_list(names, others),
        }
    }
}

fn name_below<'a>(count: u32, value: u32) -> Option<ValueName<'a>>
    ensures { result ≡ slice_get (numbers count) value }
{
    if value < count {
        Some(ValueName::number(value))
    } else {
        None
    }
}

// Whether the two are the same lists.
fn is_list(names: &NameSet, others: &NameSet) -> bool
    ensures { IsTrue result ↔ (names.now ≡ others.now) }
{
    names.is_same(others)
}

// Whether the names are the numbers below the count.
fn are_numbers(names: &NameSet, count: u32) -> bool
    ensures { IsTrue result ↔ (names.now ≡ numbers count) }
{
    if names.len() != count as usize {
        return false;
    }
    for value in 0..count {
        if !is_number(names, value) {
            return false;
        }
    }
    true
}

// Whether the name at a place is that number.
fn is_number(names: &NameSet, value: u32) -> bool
    ensures { IsTrue result ↔ (slice_get names.now value ≡ Some (decimal value)) }
{
    match names.get(value as usize) {
        Some(name) => is_written(value, name),
        None => false,
    }
}

// The names as a set, where they are different.
fn set_of(alloc: Global, names: Vec<Vec<u8>>) -> Result<Option<NameSet>, AllocError>
    ensures { IfOk result (λ found. MatchOption found
        (are_different (map (λ n. n.items) names.items) ≡ false)
        (λ set. set ≡ map (λ n. n.items) names.items)) }
{
    let mut set = NameSet::new(alloc);
    for name in names {
        let is_new = set.add(name)?;
        if !is_new {
            return Ok(None);
        }
    }
    Ok(Some(set))
}
