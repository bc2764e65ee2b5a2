//! The variables of X, by their names.

ghost use Rattle.std.specs.Prelude.{◌≡◌, ◌<◌, ◌≤◌, ◌++◌, true, length, map, OnOk, IfOk};
ghost use Rattle.std.specs.List.{list_all};
ghost use Rattle.name_table.specs.ScopeVars.{variable_of, variables_of};
ghost use Rattle.name_table.specs.Variables.{are_different, is_in};
ghost use Rattle.net_problem.specs.Building.{known_in, x_in};
ghost use Rattle.net_model.specs.Parts.{actions_of};
ghost use Rattle.net_model.specs.Topologies as topologies;
ghost use Rattle.net_model.specs.Topologies.{is_named, variable_named};

use crate::joint::acting;
use name_table::ScopeVar;
use net_model::{Mode, NameList};
use std::alloc::{AllocError, Global};

/// The variables of X with these inputs and outputs, where these are the joint variables.
pub fn x_vars(
    alloc: Global,
    mode: Mode,
    joint: &[ScopeVar],
    ins: &NameList,
    outs: &NameList,
) -> Result<Vec<ScopeVar>, AllocError>
    requires known { list_all (is_in (known_in mode (variables_of joint.now))) (ins.now ++ outs.now) ≡ true }
    requires different { are_different (ins.now ++ outs.now) ≡ true }
    requires some { mode ≡ Mode.Parallel → 0 < length (ins.now ++ outs.now) }
    requires few { length joint.now ≤ 16384 }
    requires few_actions { mode ≡ Mode.Parallel → length (actions_of (variables_of joint.now)) ≤ 131072 }
    ensures vars { IfOk result (λ vars. variables_of vars.items ≡ x_in mode (variables_of joint.now) (ins.now ++ outs.now)) }
    ensures few { OnOk result (length (ins.now ++ outs.now) ≤ 131072) }
{
    match mode {
        Mode::Sync => named_vars(alloc, joint, ins, outs),
        Mode::Parallel => acting(alloc, all_names(alloc, ins, outs)?),
    }
}

fn named_vars(
    alloc: Global,
    joint: &[ScopeVar],
    ins: &NameList,
    outs: &NameList,
) -> Result<Vec<ScopeVar>, AllocError>
    requires of_ins { list_all (is_named (variables_of joint.now)) ins.now ≡ true }
    requires of_outs { list_all (is_named (variables_of joint.now)) outs.now ≡ true }
    ensures { IfOk result (λ vars. variables_of vars.items ≡ map (variable_named (variables_of joint.now)) (ins.now ++ outs.now)) }
{
    let mut vars = Vec::new(alloc);
    push_named(&mut vars, joint, ins)?;
    push_named(&mut vars, joint, outs)?;
    Ok(vars)
}

// Puts the variables of these names at the end.
fn push_named(
    vars: &mut Vec<ScopeVar>,
    joint: &[ScopeVar],
    names: &NameList,
) -> Result<(), AllocError>
    requires { list_all (is_named (variables_of joint.now)) names.now ≡ true }
    ensures { OnOk result (variables_of vars.new.items ≡ variables_of vars.old.items ++ map (variable_named (variables_of joint.now)) names.now) }
{
    let list = names.names();
    for name in list {
        let var = var_named(joint, name)?;
        vars.push(var)?;
    }
    Ok(())
}

fn var_named(joint: &[ScopeVar], name: &[u8]) -> Result<ScopeVar, AllocError>
    requires { is_named (variables_of joint.now) name.now ≡ true }
    ensures { IfOk result (λ var. variable_of var ≡ variable_named (variables_of joint.now) name.now) }
{
    for var in joint {
        if var.name.as_slice() == name {
            return var.clone();
        }
    }
    unreachable!()
}

fn all_names(alloc: Global, ins: &NameList, outs: &NameList) -> Result<Vec<Vec<u8>>, AllocError>
    ensures { IfOk result (λ names. map (λ n. n.items) names.items ≡ ins.now ++ outs.now) }
{
    let mut names = Vec::new(alloc);
    push_names(alloc, &mut names, ins)?;
    push_names(alloc, &mut names, outs)?;
    Ok(names)
}

// Puts copies of the names at the end.
fn push_names(alloc: Global, all: &mut Vec<Vec<u8>>, names: &NameList) -> Result<(), AllocError>
    ensures { OnOk result (map (λ n. n.items) all.new.items ≡ map (λ n. n.items) all.old.items ++ names.now) }
{
    let list = names.names();
    for name in list {
        all.push(name.to_vec(alloc)?)?;
    }
    Ok(())
}
