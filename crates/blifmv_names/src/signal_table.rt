//! The signals that a text has mentioned so far.

ghost use Rattle.std.specs.Prelude.{◌≡◌, ◌+◌, ◌<◌, ◌≤◌, ◌++◌, [], ◌∷◌, length, take, slice_get, Some, None, IfOk, OnOk, OnErr, unwrap_or};
ghost use Rattle.std.specs.Option.{option_copied};
ghost use Rattle.name_table.specs.Variables as variables;
ghost use Rattle.name_table.specs.Variables.{is_in, place_of, numbers};
ghost use Rattle.blifmv_names.specs.Signals.{HasFewValues, AreSignals, names_of, put_in, given_in, mentioned, given_to, variables_of};

use indexmap::IndexMap;
use name_table::{Domain, NameFault, Names};
use std::alloc::{AllocError, Global};
use std::marker::Model;

/// Signals in the order of first appearance, each with the domain that a line gave it. It is found by its hash.
#[derive(Drop)]
pub struct SignalTable {
    table: IndexMap<Vec<u8>, Option<Domain>>,
}

impl Model for SignalTable {
    ghost use Rattle.std.specs.Prelude.{List, map};
    ghost use Rattle.blifmv_names.specs.Signals.{Signal, AreSignals};

    ghost Value = { List Signal };

    ghost view = { λ s. map (λ e. record { name = e.0.items; given = e.1 }) s.table.entries };

    ghost invariant = { λ s. AreSignals (map (λ e. record { name = e.0.items; given = e.1 }) s.table.entries) };
}

impl SignalTable {
    /// A table without signals.
    pub fn new(alloc: Global) -> SignalTable
        ensures { result ≡ [] }
    {
        SignalTable {
            table: IndexMap::new(alloc),
        }
    }

    /// How many signals there are.
    pub fn len(&self) -> usize
        ensures len { result ≡ length self.now }
        ensures signals { AreSignals self.now }
    {
        self.table.len()
    }

    /// The domain that a line gave the signal of this name.
    pub fn given(&self, name: &[u8]) -> Option<&Domain>
        ensures { option_copied result ≡ given_in self.now name.now }
    {
        match self.table.get(name) {
            Some(Some(domain)) => Some(domain),
            Some(None) => None,
            None => None,
        }
    }

    /// Puts the signal of this name behind all others, unless it is there.
    pub fn mention(&mut self, name: &[u8]) -> Result<(), AllocError>
        ensures ok { OnOk result (self.new ≡ mentioned self.old name.now) }
        ensures err { OnErr result (self.new ≡ self.old) }
    {
        if self.has(name) {
            return Ok(());
        }
        let alloc = *self.table.allocator();
        let name = name.to_vec(alloc)?;
        self.put(name, None)
    }

    /// Gives the domain to the signal of this name, unless it has one.
    pub fn give(&mut self, name: &[u8], domain: &Domain) -> Result<(), AllocError>
        requires { length domain.now ≤ 65536 }
        ensures ok { OnOk result (self.new ≡ given_to domain.now self.old name.now) }
        ensures err { OnErr result (self.new ≡ self.old) }
    {
        if self.given(name).is_some() {
            return Ok(());
        }
        let alloc = *self.table.allocator();
        let name = name.to_vec(alloc)?;
        let copy = domain.clone()?;
        self.put(name, Some(copy))
    }

    /// The signals as a table of names. One without a domain has the values 0 and 1.
    pub fn names(&self, alloc: Global) -> Result<Names, AllocError>
        requires { length self.now ≤ 4096 }
        ensures { IfOk result (λ names. names ≡ variables_of self.now) }
    {
        let Ok(binary) = Domain::numbered(alloc, 2) else {
            return Err(AllocError);
        };
        let mut names = Names::new(alloc);
        for place in 0..self.len() {
            self.add_name(&mut names, place, &binary)?;
        }
        Ok(names)
    }

    // Adds the signal at this place, behind those before it.
    fn add_name(&self, names: &mut Names, place: usize, binary: &Domain) -> Result<(), AllocError>
        requires within { place < length self.now }
        requires few { length self.now ≤ 4096 }
        requires front { names.old ≡ take place (variables_of self.now) }
        requires binary { binary.now ≡ numbers 2 }
        ensures { OnOk result (names.new ≡ take (place + 1) (variables_of self.now)) }
    {
        let (name, given) = self.signal_at(place);
        let domain = domain_or(given, binary)?;
        add_new(names, name, domain)?;
        Ok(())
    }

    fn signal_at(&self, place: usize) -> (&[u8], &Option<Domain>)
        requires { place < length self.now }
        ensures signal { slice_get self.now place ≡ Some (record { name = result.0.now; given = result.1.now }) }
        ensures signals { AreSignals self.now }
    {
        let (name, given) = self.table.get_index(place).unwrap();
        (name.as_slice(), given)
    }

    // Whether there is a signal of this name.
    pub(crate) fn has(&self, name: &[u8]) -> bool
        ensures { result ≡ is_in (names_of self.now) name.now }
    {
        self.table.contains_key(name)
    }

    fn put(&mut self, name: Vec<u8>, given: Option<Domain>) -> Result<(), AllocError>
        requires { HasFewValues given }
        ensures ok { OnOk result (self.new ≡ put_in self.old (record { name = name.items; given = given })) }
        ensures err { OnErr result (self.new ≡ self.old) }
    {
        self.table.insert(name, given)?;
        Ok(())
    }
}

fn domain_or(given: &Option<Domain>, other: &Domain) -> Result<Domain, AllocError>
    ensures { IfOk result (λ domain. domain ≡ unwrap_or given.now other.now) }
{
    match given {
        Some(domain) => domain.clone(),
        None => other.clone(),
    }
}

// Adds a name that isn't there.
fn add_new(names: &mut Names, name: &[u8], domain: Domain) -> Result<(), AllocError>
    requires new { place_of (variables.names_of names.old) name.now ≡ None }
    requires room { length names.old < 4096 }
    requires few { length domain ≤ 65536 }
    ensures { OnOk result (names.new ≡ names.old ++ record { name = name.now; values = domain } ∷ []) }
{
    match names.add(name, domain) {
        Ok(_) => Ok(()),
        Err(NameFault::Memory) => Err(AllocError),
        Err(NameFault::DomainDiffers) => unreachable!(),
        Err(NameFault::TooManyVars) => unreachable!(),
        Err(NameFault::TooManyValues) => unreachable!(),
    }
}
