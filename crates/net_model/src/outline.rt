//! Machines as levels are given to them.

ghost use Rattle.std.specs.Prelude.{◌≡◌, ◌<◌, ◌≤◌, ◌++◌, ◌∷◌, [], length, map, IfOk, OnOk};
ghost use Rattle.std.specs.List.{range_with_len};
ghost use Rattle.name_table.specs.ScopeVars.{variable_at};
ghost use Rattle.name_table.specs.Variables.{numbers, IsTable};
ghost use Rattle.net_model.specs.Machines.{machine_of, IsSoundMachine};
ghost use Rattle.net_model.specs.Nets.{net_of};
ghost use Rattle.net_model.specs.Outlines.{outline_of};

use crate::machine::Machine;
use crate::net::{Latch, Net};
use name_table::{Domain, DomainFault, NameFault, Names, Scope, VarId};
use std::alloc::{AllocError, Global};

impl Machine {
    /// The machine as signals: its columns are inputs, and its state is the value of a latch without a name, which takes as
    /// many values as there are states. There are no tables, so this network says nothing of the machine's steps.
    pub fn outline(&self, alloc: Global) -> Result<Net, AllocError>
        requires { IsSoundMachine (machine_of self.now) }
        ensures { IfOk result (λ net. net_of net ≡ outline_of (machine_of self.now)) }
    {
        let mut names = Names::new(alloc);
        add_columns(&mut names, &self.inputs)?;
        add_columns(&mut names, &self.outputs)?;
        let inputs = numbers_below(alloc, names.len())?;
        let states = states_of(alloc, self.states)?;
        let state = add_new(&mut names, b"", states)?;
        let mut latches = Vec::new(alloc);
        latches.push(Latch {
            input: state,
            output: state,
        })?;
        Ok(Net {
            names,
            inputs,
            outputs: Vec::new(alloc),
            tables: Vec::new(alloc),
            latches,
            resets: Vec::new(alloc),
        })
    }
}

// Adds the variables of a scope, in their order.
fn add_columns(names: &mut Names, columns: &Scope) -> Result<(), AllocError>
    requires { IsTable (names.old ++ columns.now) }
    ensures { OnOk result (names.new ≡ names.old ++ columns.now) }
{
    for column in 0..columns.len() {
        add_column(names, columns, column)?;
    }
    Ok(())
}

// Adds the variable at a place of a scope.
fn add_column(names: &mut Names, columns: &Scope, column: u32) -> Result<(), AllocError>
    requires column { column < length columns.now }
    requires table { IsTable (names.old ++ variable_at columns.now column ∷ []) }
    ensures { OnOk result (names.new ≡ names.old ++ variable_at columns.now column ∷ []) }
{
    let name = columns.name(column).unwrap();
    let domain = columns.domain(column).unwrap().clone()?;
    add_new(names, name, domain)?;
    Ok(())
}

// Adds a variable that the table can have besides those that it has.
fn add_new(names: &mut Names, name: &[u8], domain: Domain) -> Result<VarId, AllocError>
    requires { IsTable (names.old ++ record { name = name.now; values = domain } ∷ []) }
    ensures number { IfOk result (λ var. var.0 ≡ length names.old) }
    ensures names { OnOk result (names.new ≡ names.old ++ record { name = name.now; values = domain } ∷ []) }
{
    match names.add(name, domain) {
        Ok(var) => Ok(var),
        Err(NameFault::Memory) => Err(AllocError),
        Err(NameFault::DomainDiffers) => unreachable!(),
        Err(NameFault::TooManyVars) => unreachable!(),
        Err(NameFault::TooManyValues) => unreachable!(),
    }
}

// The domain of the states of a machine.
fn states_of(alloc: Global, states: u32) -> Result<Domain, AllocError>
    requires some { 0 < states }
    requires few { states ≤ 65536 }
    ensures { IfOk result (λ domain. domain ≡ numbers states) }
{
    match Domain::numbered(alloc, states) {
        Ok(domain) => Ok(domain),
        Err(DomainFault::Memory) => Err(AllocError),
        Err(DomainFault::Empty) => unreachable!(),
        Err(DomainFault::Repeated) => unreachable!(),
        Err(DomainFault::TooMany) => unreachable!(),
    }
}

// The numbers from 0 on, below this one.
fn numbers_below(alloc: Global, count: u32) -> Result<Vec<VarId>, AllocError>
    ensures { IfOk result (λ vars. map (λ v. v.0) vars.items ≡ range_with_len 0 count) }
{
    let mut vars = Vec::new(alloc);
    for k in 0..count {
        vars.push(VarId(k))?;
    }
    Ok(vars)
}
