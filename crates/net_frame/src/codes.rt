//! Codes of single variables, and the levels of several codes as a set.

ghost use Rattle.std.specs.Prelude.{◌≡◌, ◌<◌, ◌≤◌, ◌+◌, ◌++◌, length, IfOk, OnOk};
ghost use Rattle.bdd_ops.specs.Levels.{IsSetOf};
ghost use Rattle.name_table.specs.CodeBits.{bits_in};
ghost use Rattle.name_table.specs.ScopeVars.{variable_at};
ghost use Rattle.mv_encoding.specs.Layouts.{levels_of};
ghost use Rattle.mv_encoding.specs.Spots.{spot_of, all_levels};

use bdd_ops::LevelSet;
use mv_encoding::{CodeFault, Coding};
use name_table::{Domain, Names, Scope, ScopeVar, VarId};
use std::alloc::{AllocError, Global};

/// The coding of a scope whose letters are known to be short.
pub(crate) fn planned(alloc: Global, scope: &Scope, first: u32) -> Result<Coding, AllocError>
    requires low { first ≤ 8192 }
    requires few { bits_in scope.now ≤ 2000 }
    ensures { IfOk result (λ coding. coding ≡ record { scope = scope.now; first = first }) }
{
    match Coding::plan(alloc, scope, first) {
        Ok(coding) => Ok(coding),
        Err(CodeFault::Memory) => Err(AllocError),
        Err(CodeFault::Bits(_)) => unreachable!(),
    }
}

// The code of a variable of this name and domain, from this level on.
fn code_from(alloc: Global, name: &[u8], domain: &Domain, first: u32) -> Result<Coding, AllocError>
    requires { first ≤ 8192 }
    ensures { IfOk result (λ code. code ≡ spot_of (record { name = name.now; values = domain.now }) first) }
{
    prove!(domain.len() <= 131_072);
    let name = name.to_vec(alloc)?;
    let domain = domain.clone()?;
    let mut vars = Vec::new(alloc);
    vars.push(ScopeVar { name, domain })?;
    planned(alloc, &Scope::of_vars(vars), first)
}

/// The code of a variable of a scope, from this level on.
pub(crate) fn code_of_variable(
    alloc: Global,
    scope: &Scope,
    var: u32,
    first: u32,
) -> Result<Coding, AllocError>
    requires var { var < length scope.now }
    requires low { first ≤ 8192 }
    ensures { IfOk result (λ code. code ≡ spot_of (variable_at scope.now var) first) }
{
    let name = scope.name(var).unwrap();
    let domain = scope.domain(var).unwrap();
    code_from(alloc, name, domain, first)
}

/// The code of a signal, from this level on.
pub(crate) fn code_of_signal(
    alloc: Global,
    names: &Names,
    signal: VarId,
    first: u32,
) -> Result<Coding, AllocError>
    requires signal { signal.0 < length names.now }
    requires low { first ≤ 8192 }
    ensures { IfOk result (λ code. code ≡ spot_of (variable_at names.now signal.0) first) }
{
    let name = names.name(signal).unwrap();
    let domain = names.domain(signal).unwrap();
    code_from(alloc, name, domain, first)
}

/// Another coding of the same scope on the same levels.
pub(crate) fn copied(alloc: Global, code: &Coding) -> Result<Coding, AllocError>
    requires { code.now.first ≤ 8192 }
    ensures { IfOk result (λ copy. copy ≡ code.now) }
{
    prove!(code.bits() <= 2_000);
    planned(alloc, code.scope(), code.first())
}

/// The levels of all these codes.
pub(crate) fn set_of_levels(alloc: Global, codes: &[Coding]) -> Result<LevelSet, AllocError>
    requires { length codes.now ≤ 16384 }
    ensures { IfOk result (IsSetOf (all_levels codes.now)) }
{
    let mut levels = Vec::new(alloc);
    for code in codes {
        push_levels(&mut levels, code)?;
    }
    LevelSet::of(alloc, &levels)
}

// Puts the levels of a code at the end.
fn push_levels(levels: &mut Vec<u32>, code: &Coding) -> Result<(), AllocError>
    ensures levels { OnOk result (levels.new.items ≡ levels.old.items ++ levels_of code.now) }
    ensures few { OnOk result (length levels.new.items ≤ length levels.old.items + 2000) }
{
    prove!(code.bits() <= 2_000);
    let all = code.levels();
    for k in 0..all.len() {
        levels.push(all.at(k).unwrap())?;
    }
    Ok(())
}
