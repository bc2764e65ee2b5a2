//! What a coding keeps, made from a scope.

ghost use Rattle.std.specs.Prelude.{◌≡◌, ◌<◌, ◌≤◌, length, IfOk, OnOk};
ghost use Rattle.std.specs.List.{range_with_len};
ghost use Rattle.name_table.specs.ScopeVars.{variable_at};
ghost use Rattle.name_table.specs.CodeBits.{bits_of, bits_in};
ghost use Rattle.mv_encoding.specs.Fields.{fields_from, AllFit};

use crate::field::Field;
use bdd_ops::LevelSet;
use name_table::{Scope, code_bits};
use std::alloc::{AllocError, Global};

/// How many values the variable at a place has.
pub(crate) fn values_at(scope: &Scope, var: u32) -> u32
    requires { var < length scope.now }
    ensures values { result ≡ length (variable_at scope.now var).values }
    ensures some { 0 < result }
{
    scope.domain(var).unwrap().len()
}

// The bits of the variable at a place.
fn bits_at(scope: &Scope, var: u32) -> u32
    requires { var < length scope.now }
    ensures bits { result ≡ bits_of (variable_at scope.now var) }
    ensures few { result ≤ 32 }
{
    code_bits(values_at(scope, var) as usize)
}

/// How many bits a letter has.
pub(crate) fn bits_of_letter(scope: &Scope) -> u32
    ensures { result ≡ bits_in scope.now }
{
    let mut bits = 0;
    for var in 0..scope.len() {
        bits += bits_at(scope, var);
    }
    bits
}

/// The fields of the variables, in their order.
pub(crate) fn fields_of(alloc: Global, scope: &Scope) -> Result<Vec<Field>, AllocError>
    requires { bits_in scope.now ≤ 2000 }
    ensures fields { IfOk result (λ fields. fields.items ≡ fields_from 0 scope.now) }
    ensures fit { OnOk result (AllFit scope.now) }
{
    let mut fields = Vec::new(alloc);
    let mut before = 0;
    for var in 0..scope.len() {
        let bits = bits_at(scope, var);
        let values = values_at(scope, var);
        fields.push(Field {
            before,
            bits,
            values,
        })?;
        before += bits;
    }
    Ok(fields)
}

/// So many levels from this one on.
pub(crate) fn levels_from(alloc: Global, first: u32, bits: u32) -> Result<LevelSet, AllocError>
    requires first { first ≤ 8192 }
    requires few { bits ≤ 2000 }
    ensures { IfOk result (λ levels. levels ≡ range_with_len first bits) }
{
    let mut levels = Vec::new(alloc);
    for level in first..first + bits {
        levels.push(level)?;
    }
    LevelSet::of(alloc, &levels)
}
