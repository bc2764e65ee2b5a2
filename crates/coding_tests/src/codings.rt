//! The codings: which codes and diagrams some letters have, and which scopes are refused.

ghost use Rattle.std.specs.Prelude.{◌≡◌, ◌≤◌, ◌<◌, ◌++◌, ◌∷◌, [], length, decimal, IfOk, OnOk, IsTrue};
ghost use Rattle.name_table.specs.ScopeVars.{variable_at};
ghost use Rattle.net_model.specs.Words.{IsLetter};
ghost use Rattle.node_table.specs.Table.{IsTable, IsConstant};

use bdd_ops::Code;
use mv_encoding::{CodeFault, Coding, codes_are_of_letters};
use name_table::{Domain, Scope, ScopeVar};
use net_model::Letter;
use node_table::{MkFault, Ref, Space};
use std::alloc::{AllocError, Global};
use std::test::Fail;

// A scope of a variable of `first` values, and of so many binary variables after it. They are named by their numbers.
fn scope_of(alloc: Global, first: u32, more: u32) -> Result<Scope, CodeFault>
    requires { more ≤ 2000 }
{
    let mut vars = Vec::new(alloc);
    for number in 0..more + 1 {
        let size = if number == 0 { first } else { 2 };
        let var = var_of(alloc, number, size)?;
        add(&mut vars, var)?;
    }
    Ok(Scope::of_vars(vars))
}

// Puts a variable behind the others.
fn add(vars: &mut Vec<ScopeVar>, var: ScopeVar) -> Result<(), CodeFault>
    ensures { OnOk result (vars.new.items ≡ vars.old.items ++ var ∷ []) }
{
    match vars.push(var) {
        Ok(()) => Ok(()),
        Err(_) => Err(CodeFault::Memory),
    }
}

// A variable that is named by its number.
fn var_of(alloc: Global, number: u32, size: u32) -> Result<ScopeVar, CodeFault>
    ensures { IfOk result (λ var. var.name.items ≡ decimal number) }
{
    let name = name_of(alloc, number)?;
    match Domain::numbered(alloc, size) {
        Ok(domain) => Ok(ScopeVar { name, domain }),
        Err(_) => Err(CodeFault::Memory),
    }
}

fn name_of(alloc: Global, number: u32) -> Result<Vec<u8>, AllocError>
    ensures { IfOk result (λ name. name.items ≡ decimal number) }
{
    let text = number.to_string(alloc)?;
    Ok(text.into_bytes())
}

// The coding of such a scope on the levels from this one on.
fn coding_of(alloc: Global, first: u32, more: u32, level: u32) -> Result<Coding, CodeFault>
    requires more { more ≤ 2000 }
    requires level { level ≤ 8192 }
    ensures { IfOk result (λ coding. coding.first ≡ level) }
{
    let scope = scope_of(alloc, first, more)?;
    Coding::plan(alloc, &scope, level)
}

// How many values the variable at a place has.
fn values_at(scope: &Scope, var: u32) -> u32
    requires { var < length scope.now }
    ensures { result ≡ length (variable_at scope.now var).values }
{
    scope.domain(var).unwrap().len()
}

// Whether the values are those of a letter.
fn is_letter(scope: &Scope, letter: &Letter) -> bool
    ensures { IsTrue result → IsLetter scope.now letter.now.values.items }
{
    if letter.values.len() != scope.len() as usize {
        return false;
    }
    for var in 0..scope.len() {
        if letter.values[var as usize] >= values_at(scope, var) {
            return false;
        }
    }
    true
}

// The code of a letter, and none of what is no letter.
fn code_of(coding: &Coding, letter: &Letter) -> Option<Code> {
    if is_letter(coding.scope(), letter) {
        Some(coding.code_of(letter))
    } else {
        None
    }
}

// The value of a variable of the scope in a code.
fn value_of(coding: &Coding, var: u32, code: &Code) -> Option<u32> {
    if var < coding.scope().len() {
        coding.value_of(var, code)
    } else {
        None
    }
}

// Whether the first variable has this value.
fn has_value(scope: &Scope, value: u32) -> bool
    ensures { IsTrue result → (0 < length scope.now) × (value < length (variable_at scope.now 0).values) }
{
    if scope.len() == 0 {
        return false;
    }
    value < values_at(scope, 0)
}

// Whether a letter has this code, and gives its values back.
fn is_code(coding: &Coding, letter: &Letter, bits: &[bool]) -> bool {
    let Some(code) = code_of(coding, letter) else {
        return false;
    };
    for k in 0..4u32 {
        if bits.get(k as usize) == Some(&!code.bit(k)) {
            return false;
        }
    }
    for var in 0..4u32 {
        if letter.values.get(var as usize).copied() != value_of(coding, var, &code) {
            return false;
        }
    }
    true
}

// Whether the letters with these values have these codes.
fn are_codes(
    alloc: Global,
    coding: &Coding,
    codes: &[(&[u32], &[bool])],
) -> Result<bool, CodeFault> {
    for code in codes {
        let values = Vec::from_slice(alloc, code.0)?;
        if !is_code(coding, &Letter { values }, code.1) {
            return Ok(false);
        }
    }
    Ok(true)
}

// A code past the end of the domain, which has the bits 1 and 1, is no value.
fn ends_its_domain(coding: &Coding) -> bool {
    let mut past = Code::zero();
    past.set(0, true);
    past.set(1, true);
    coding.bits() == 2 && value_of(coding, 0, &past) == None
}

// Three values in two bits.
fn codes_three_values(alloc: Global) -> Result<bool, CodeFault> {
    let coding = coding_of(alloc, 3, 0, 0)?;
    let right = are_codes(
        alloc,
        &coding,
        &[
            (&[0], &[false, false]),
            (&[1], &[false, true]),
            (&[2], &[true, false]),
        ],
    )?;
    Ok(right && ends_its_domain(&coding))
}

// One value in no bit.
fn codes_one_value(alloc: Global) -> Result<bool, CodeFault> {
    let coding = coding_of(alloc, 1, 0, 3)?;
    let right = are_codes(alloc, &coding, &[(&[0], &[false])])?;
    Ok(right && coding.bits() == 0)
}

// The first variable has the levels 5 and 6, and the second the level 7.
fn codes_two_variables(alloc: Global) -> Result<bool, CodeFault> {
    let coding = coding_of(alloc, 3, 1, 5)?;
    let right = are_codes(
        alloc,
        &coding,
        &[
            (&[0, 0], &[false, false, false]),
            (&[0, 1], &[false, false, true]),
            (&[1, 0], &[false, true, false]),
            (&[1, 1], &[false, true, true]),
            (&[2, 0], &[true, false, false]),
            (&[2, 1], &[true, false, true]),
        ],
    )?;
    let levels = coding.levels();
    Ok(
        right
            && levels.at(0) == Some(5)
            && levels.at(1) == Some(6)
            && levels.at(2) == Some(7)
            && levels.at(3) == None,
    )
}

// Two thousand bits from the last level on, and one bit more.
fn takes_two_thousand_bits(alloc: Global) -> Result<bool, CodeFault> {
    let most = coding_of(alloc, 2, 1_999, 8_192)?;
    let more = coding_of(alloc, 2, 2_000, 0);
    Ok(
        most.bits() == 2_000
            && most.levels().at(1_999) == Some(10_191)
            && more.err() == Some(CodeFault::Bits(2_001)),
    )
}

#[test]
fn codes_letters(rt: HostRuntime) -> Result<(), Fail> {
    assert!(rt; codes_three_values(rt.alloc())?);
    assert!(rt; codes_one_value(rt.alloc())?);
    assert!(rt; codes_two_variables(rt.alloc())?);
    assert!(rt; takes_two_thousand_bits(rt.alloc())?);
    codes_are_of_letters();
    Ok(())
}

// A space with so many levels.
fn space_of(alloc: Global, levels: u8, limit: u32) -> Result<Space, CodeFault>
    ensures { IfOk result (λ space. IsTable space × (space.levels ≡ levels)) }
{
    let mut space = Space::with_limit(alloc, u64::from(limit))?;
    let _first = space.push_levels(u32::from(levels));
    Ok(space)
}

fn constant(space: &Space, value: bool) -> Ref
    ensures { IsConstant space.now value result }
{
    if value { space.one() } else { space.zero() }
}

// The diagram with these values at the four codes on the levels 5 and 6.
fn drawn(space: &mut Space, values: [bool; 4]) -> Result<Ref, MkFault>
    requires { space.old.levels ≡ 8 }
    ensures { space.new.levels ≡ 8 }
{
    let first = constant(space, values[0]);
    let second = constant(space, values[1]);
    let low = space.mk(6, first, second)?;
    let third = constant(space, values[2]);
    let fourth = constant(space, values[3]);
    let high = space.mk(6, third, fourth)?;
    space.mk(5, low, high)
}

// Whether the cube of a value of the first variable has these values at its codes.
fn is_cube(alloc: Global, value: u32, values: [bool; 4]) -> Result<bool, CodeFault> {
    let coding = coding_of(alloc, 3, 1, 5)?;
    if coding.bits() > 3 || !has_value(coding.scope(), value) {
        return Ok(false);
    }
    let mut space = space_of(alloc, 8, 100)?;
    let want = drawn(&mut space, values);
    Ok(want.is_ok() && coding.cube(&mut space, 0, value) == want)
}

// Whether these are all letters of a variable with so many values.
fn is_valid(alloc: Global, size: u32, values: [bool; 4]) -> Result<bool, CodeFault> {
    let coding = coding_of(alloc, size, 0, 5)?;
    if coding.bits() > 3 {
        return Ok(false);
    }
    let mut space = space_of(alloc, 8, 100)?;
    let want = drawn(&mut space, values);
    Ok(want.is_ok() && coding.valid(&mut space) == want)
}

// A coding without bits asks for no level.
fn asks_for_no_level(alloc: Global) -> Result<bool, CodeFault> {
    let coding = coding_of(alloc, 1, 0, 3)?;
    if coding.bits() > 0 || !has_value(coding.scope(), 0) {
        return Ok(false);
    }
    let mut space = space_of(alloc, 0, 0)?;
    let one = space.one();
    Ok(coding.cube(&mut space, 0, 0) == Ok(one) && coding.valid(&mut space) == Ok(one))
}

// A cube of two bits, where there is place for one node.
fn is_refused(alloc: Global) -> Result<bool, CodeFault> {
    let coding = coding_of(alloc, 4, 0, 0)?;
    if coding.bits() > 2 || !has_value(coding.scope(), 3) {
        return Ok(false);
    }
    let mut space = space_of(alloc, 2, 1)?;
    Ok(coding.cube(&mut space, 0, 3) == Err(MkFault::Full))
}

#[test]
fn draws_values(rt: HostRuntime) -> Result<(), Fail> {
    let alloc = rt.alloc();
    for (value, values) in [
        (0, [true, false, false, false]),
        (1, [false, true, false, false]),
        (2, [false, false, true, false]),
    ] {
        assert!(rt; is_cube(alloc, value, values)?);
    }
    for (size, values) in [
        (3, [true, true, true, false]),
        (4, [true, true, true, true]),
    ] {
        assert!(rt; is_valid(alloc, size, values)?);
    }
    assert!(rt; asks_for_no_level(alloc)?);
    assert!(rt; is_refused(alloc)?);
    Ok(())
}

#[test]
fn prints_faults(rt: HostRuntime) -> Result<(), Fail> {
    for (fault, words) in [
        (
            CodeFault::Bits(2_001),
            "a letter has 2001 bits, and at most 2000 are coded",
        ),
        (CodeFault::Memory, "out of memory"),
    ] {
        assert_eq!(rt; fault.to_string(rt.alloc())?.as_str(), words);
    }
    Ok(())
}
