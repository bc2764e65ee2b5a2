//! The codes of joint variables, and of X's variables one by one.

ghost use Rattle.std.specs.Prelude.{◌≡◌, ◌<◌, ◌≤◌, ◌+◌, false, true, length, map, IfOk, IfSome, IfNone};
ghost use Rattle.std.specs.List.{range_with_len};
ghost use Rattle.name_table.specs.CodeBits.{bits_in};
ghost use Rattle.name_table.specs.ScopeVars.{variable_at};
ghost use Rattle.net_model.specs.Topologies.{is_named};
ghost use Rattle.mv_encoding.specs.Sets.{layout_of};
ghost use Rattle.net_frame.specs.Frames as frames;
ghost use Rattle.net_frame.specs.Frames.{shared_by, joint_spot, joint_spots, added};
ghost use Rattle.net_frame.specs.Making.{added_bits};

use crate::codes::code_of_variable;
use mv_encoding::Coding;
use name_table::Scope;
use net_model::Mode;
use net_problem::bits_of_variable;
use std::alloc::{AllocError, Global};

/// The codes of the joint variables, and the level behind them: those of X stand where they stand in X's letter, and the
/// others one after another.
pub(crate) fn joint_codes(
    alloc: Global,
    mode: Mode,
    joint: &Scope,
    x: &Coding,
    next: u32,
) -> Result<(Vec<Coding>, u32), AllocError>
    requires x { x.now.first + bits_in x.now.scope ≤ 8192 }
    requires room { next + added_bits (shared_by mode x.now.scope) joint.now ≤ 8192 }
    ensures codes { IfOk result (λ made. made.0.items ≡ joint_spots (shared_by mode x.now.scope) x.now.first next joint.now) }
    ensures next { IfOk result (λ made. made.1 ≡ next + added_bits (shared_by mode x.now.scope) joint.now) }
{
    let mut codes = Vec::new(alloc);
    let mut level = next;
    for var in 0..joint.len() {
        let (code, behind) = joint_code(alloc, mode, joint, var, x, level)?;
        codes.push(code)?;
        level = behind;
    }
    Ok((codes, level))
}

// The code of one of them, and the level behind those that are not X's.
fn joint_code(
    alloc: Global,
    mode: Mode,
    joint: &Scope,
    var: u32,
    x: &Coding,
    next: u32,
) -> Result<(Coding, u32), AllocError>
    requires var { var < length joint.now }
    requires x { x.now.first + bits_in x.now.scope ≤ 8192 }
    requires next { next ≤ 8192 }
    ensures code { IfOk result (λ made. made.0 ≡ joint_spot (shared_by mode x.now.scope) x.now.first next (variable_at joint.now var)) }
    ensures next { IfOk result (λ made. made.1 ≡ next + added (shared_by mode x.now.scope) (variable_at joint.now var)) }
{
    match shared_level(mode, x, name_of_variable(joint, var)) {
        Some(level) => {
            let code = code_of_variable(alloc, joint, var, level)?;
            Ok((code, next))
        }
        None => {
            let code = code_of_variable(alloc, joint, var, next)?;
            let bits = code.bits();
            Ok((code, next + bits))
        }
    }
}

// Where a variable of this name stands in X's letter, if it is one of the joint variables that X has.
fn shared_level(mode: Mode, x: &Coding, name: &[u8]) -> Option<u32>
    requires { x.now.first + bits_in x.now.scope ≤ 8192 }
    ensures some { IfSome result (λ level. is_named (shared_by mode x.now.scope) name.now ≡ true) }
    ensures level { IfSome result (λ level. level ≡ frames.level_in (shared_by mode x.now.scope) x.now.first name.now) }
    ensures low { IfSome result (λ level. level ≤ 8192) }
    ensures none { IfNone result (is_named (shared_by mode x.now.scope) name.now ≡ false) }
{
    match mode {
        Mode::Sync => level_in(x, name),
        Mode::Parallel => None,
    }
}

// Where X's variable of this name stands in X's letter.
fn level_in(x: &Coding, name: &[u8]) -> Option<u32>
    requires { x.now.first + bits_in x.now.scope ≤ 8192 }
    ensures some { IfSome result (λ level. is_named x.now.scope name.now ≡ true) }
    ensures level { IfSome result (λ level. level ≡ frames.level_in x.now.scope x.now.first name.now) }
    ensures low { IfSome result (λ level. level ≤ 8192) }
    ensures none { IfNone result (is_named x.now.scope name.now ≡ false) }
{
    let scope = x.scope();
    let mut level = x.first();
    for var in 0..scope.len() {
        if name_of_variable(scope, var) == name {
            return Some(level);
        }
        level += bits_of_variable(scope, var);
    }
    None
}

fn name_of_variable(scope: &Scope, var: u32) -> &[u8]
    requires { var < length scope.now }
    ensures { result.now ≡ (variable_at scope.now var).name }
{
    scope.name(var).unwrap()
}

/// The codes of X's variables, each by itself, where they stand in X's letter.
pub(crate) fn codes_of_x(alloc: Global, x: &Coding) -> Result<Vec<Coding>, AllocError>
    requires { x.now.first + bits_in x.now.scope ≤ 8192 }
    ensures few { IfOk result (λ codes. length codes.items ≤ 16384) }
    ensures codes { IfOk result (λ codes. codes.items ≡ map (layout_of x.now) (range_with_len 0 (length x.now.scope))) }
{
    let mut codes = Vec::new(alloc);
    let scope = x.scope();
    let mut level = x.first();
    for var in 0..scope.len() {
        let code = code_of_variable(alloc, scope, var, level)?;
        level += code.bits();
        codes.push(code)?;
    }
    Ok(codes)
}
