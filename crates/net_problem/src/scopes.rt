//! The scopes of a problem: the joint variables, and those of X.

ghost use Rattle.std.specs.Prelude.{◌≡◌, ◌<◌, ◌≤◌, ◌++◌, None, true, length, vec_len, IfOk, IfErr, OnOk};
ghost use Rattle.name_table.specs.ScopeVars.{variables_of};
ghost use Rattle.name_table.specs.Variables.{names_of, are_different, IsScope};
ghost use Rattle.net_problem.specs.Building.{known_in, joint_in, x_in, names_refusal};
ghost use Rattle.net_model.specs.Machines.{machine_of, machine_letters, IsSoundMachine};
ghost use Rattle.net_model.specs.Parts.{actions_of};
ghost use Rattle.net_model.specs.Problems.{file_of, file_letters, file_refusal, IsSoundFile, IsRefusal};

use crate::joint::joint_of;
use crate::letter_vars::letter_vars;
use crate::name_faults::{check_files, check_names};
use crate::x_vars::x_vars;
use name_table::{Scope, ScopeVar};
use net_model::{File, Machine, Mode, NameList, NameRefusal};
use std::alloc::{AllocError, Global};

/// The joint variables of two files that suit the mode.
pub fn joint_of_files(
    alloc: Global,
    mode: Mode,
    f: &File,
    s: &File,
) -> Result<Vec<ScopeVar>, NameRefusal>
    requires f_sound { IsSoundFile (file_of f.now) }
    requires s_sound { IsSoundFile (file_of s.now) }
    ensures joint { IfOk result (λ joint. variables_of joint.items ≡ joint_in mode (file_letters (file_of f.now)) (file_letters (file_of s.now))) }
    ensures good { IfOk result (λ joint. IsScope (variables_of joint.items)) }
    ensures few_actions { IfOk result (λ joint. mode ≡ Mode.Parallel → length (actions_of (variables_of joint.items)) ≤ 131072) }
    ensures none { OnOk result (file_refusal mode (file_of f.now) (file_of s.now) ≡ None) }
    ensures refused { IfErr result (λ refusal. IsRefusal refusal (file_refusal mode (file_of f.now) (file_of s.now))) }
{
    let f_vars = file_vars(alloc, f)?;
    let s_vars = file_vars(alloc, s)?;
    check_files(alloc, mode, f, s, &f_vars, &s_vars)?;
    let joint = joint_of(alloc, mode, &f_vars, &s_vars)?;
    Ok(joint)
}

// The variables of the file's letters.
fn file_vars(alloc: Global, file: &File) -> Result<Vec<ScopeVar>, AllocError>
    requires { IsSoundFile (file_of file.now) }
    ensures vars { IfOk result (λ vars. variables_of vars.items ≡ file_letters (file_of file.now)) }
    ensures few { IfOk result (λ vars. length (variables_of vars.items) ≤ 4096) }
    ensures different { IfOk result (λ vars. are_different (names_of (variables_of vars.items)) ≡ true) }
    ensures few_actions { IfOk result (λ vars. length (actions_of (variables_of vars.items)) ≤ 65536) }
{
    match file {
        File::Net(net) => letter_vars(alloc, net),
        File::Machine(machine) => column_vars(alloc, machine),
    }
}

// The variables of a machine's columns.
fn column_vars(alloc: Global, machine: &Machine) -> Result<Vec<ScopeVar>, AllocError>
    requires { IsSoundMachine (machine_of machine.now) }
    ensures vars { IfOk result (λ vars. variables_of vars.items ≡ machine_letters (machine_of machine.now)) }
    ensures few { IfOk result (λ vars. vec_len vars ≤ 4096) }
    ensures different { IfOk result (λ vars. are_different (names_of (variables_of vars.items)) ≡ true) }
    ensures few_actions { IfOk result (λ vars. length (actions_of (variables_of vars.items)) ≤ 65536) }
{
    let outline = machine.outline(alloc)?;
    letter_vars(alloc, &outline)
}

/// The variables of an X with these names, where these are the joint variables.
pub fn x_of_names(
    alloc: Global,
    mode: Mode,
    joint: &[ScopeVar],
    ins: &NameList,
    outs: &NameList,
) -> Result<Vec<ScopeVar>, NameRefusal>
    requires joint { IsScope (variables_of joint.now) }
    requires few_actions { mode ≡ Mode.Parallel → length (actions_of (variables_of joint.now)) ≤ 131072 }
    requires some { mode ≡ Mode.Parallel → 0 < length (ins.now ++ outs.now) }
    ensures x { IfOk result (λ x. variables_of x.items ≡ x_in mode (variables_of joint.now) (ins.now ++ outs.now)) }
    ensures good { IfOk result (λ x. IsScope (variables_of x.items)) }
    ensures few { IfOk result (λ x. length ins.now ≤ 131072) }
    ensures none { OnOk result (names_refusal mode (known_in mode (variables_of joint.now)) ins.now outs.now ≡ None) }
    ensures refused { IfErr result (λ refusal. IsRefusal refusal (names_refusal mode (known_in mode (variables_of joint.now)) ins.now outs.now)) }
{
    check_names(alloc, mode, joint, ins, outs)?;
    let x = x_vars(alloc, mode, joint, ins, outs)?;
    Ok(x)
}

/// The scope of these variables.
pub fn scope_of(vars: Vec<ScopeVar>) -> Scope
    requires { IsScope (variables_of vars.items) }
    ensures { result ≡ variables_of vars.items }
{
    Scope::of_vars(vars)
}
