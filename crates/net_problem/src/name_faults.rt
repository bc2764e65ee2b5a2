//! Why two files and two lists of names make no problem. `specs/Problems.antt` has the causes and their order.

ghost use Rattle.std.specs.Prelude.{◌≡◌, ◌==◌, [], ◌∷◌, None, length, codes, IfOk, IfErr, OnOk};
ghost use Rattle.name_table.specs.ScopeVars.{variables_of};
ghost use Rattle.name_table.specs.Variables.{is_in};
ghost use Rattle.net_problem.specs.Building.{known_in, names_refusal};
ghost use Rattle.net_model.specs.Problems as problems;
ghost use Rattle.net_model.specs.Problems.{file_of, file_letters, file_refusal, variable_refusal, domain_refusal, name_refusal, list_refusal, or_else, IsRefusal};

use crate::joint::{has_action, is_named};
use name_table::{NameSet, ScopeVar};
use net_model::{File, Mode, NameList, NameRefusal, Slot};
use std::alloc::{AllocError, Global};

/// Whether files with these letters suit the mode.
pub fn check_files(
    alloc: Global,
    mode: Mode,
    f: &File,
    s: &File,
    f_vars: &[ScopeVar],
    s_vars: &[ScopeVar],
) -> Result<(), NameRefusal>
    requires f_vars { variables_of f_vars.now ≡ file_letters (file_of f.now) }
    requires s_vars { variables_of s_vars.now ≡ file_letters (file_of s.now) }
    ensures none { OnOk result (file_refusal mode (file_of f.now) (file_of s.now) ≡ None) }
    ensures refused { IfErr result (λ refusal. IsRefusal refusal (file_refusal mode (file_of f.now) (file_of s.now))) }
{
    match mode {
        Mode::Sync => check_domains(alloc, f_vars, s_vars),
        Mode::Parallel => check_variables(f, s),
    }
}

fn check_variables(f: &File, s: &File) -> Result<(), NameRefusal>
    ensures none { OnOk result (or_else (variable_refusal Slot.F (file_of f.now)) (variable_refusal Slot.S (file_of s.now)) ≡ None) }
    ensures refused { IfErr result (λ refusal. IsRefusal refusal (or_else (variable_refusal Slot.F (file_of f.now)) (variable_refusal Slot.S (file_of s.now)))) }
{
    if !has_one_variable(f) {
        return Err(NameRefusal::NotOneVariable(Slot::F));
    }
    if !has_one_variable(s) {
        return Err(NameRefusal::NotOneVariable(Slot::S));
    }
    Ok(())
}

fn has_one_variable(file: &File) -> bool
    ensures { result ≡ problems.has_one_variable (file_of file.now) }
{
    match file {
        File::Net(net) => net.has_acc() && net.inputs.len() == 1,
        File::Machine(_) => false,
    }
}

// Whether each variable of both has one domain.
fn check_domains(alloc: Global, f: &[ScopeVar], s: &[ScopeVar]) -> Result<(), NameRefusal>
    ensures none { OnOk result (domain_refusal (variables_of f.now) (variables_of s.now) ≡ None) }
    ensures refused { IfErr result (λ refusal. IsRefusal refusal (domain_refusal (variables_of f.now) (variables_of s.now))) }
{
    for var in f {
        if has_other_domain(s, var) {
            let name = var.name.to_vec(alloc)?;
            return Err(NameRefusal::DomainDiffers(name));
        }
    }
    Ok(())
}

// Whether S has the variable with another domain.
fn has_other_domain(s: &[ScopeVar], var: &ScopeVar) -> bool
    ensures { result ≡ problems.has_other_domain (variables_of s.now) var.now.name.items var.now.domain }
{
    for other in s {
        if other.name.as_slice() == var.name.as_slice() {
            return !var.domain.is_same(&other.domain);
        }
    }
    false
}

/// Whether the names of the inputs and those of the outputs can be names of X, where these are the joint variables.
pub fn check_names(
    alloc: Global,
    mode: Mode,
    joint: &[ScopeVar],
    ins: &NameList,
    outs: &NameList,
) -> Result<(), NameRefusal>
    ensures none { OnOk result (names_refusal mode (known_in mode (variables_of joint.now)) ins.now outs.now ≡ None) }
    ensures refused { IfErr result (λ refusal. IsRefusal refusal (names_refusal mode (known_in mode (variables_of joint.now)) ins.now outs.now)) }
{
    let none = NameSet::new(alloc);
    let taken = check_list(alloc, mode, joint, &none, ins)?;
    check_list(alloc, mode, joint, &taken, outs)?;
    Ok(())
}

// The names of a list as a set, where they can be names of X beside these others.
fn check_list(
    alloc: Global,
    mode: Mode,
    joint: &[ScopeVar],
    others: &NameSet,
    names: &NameList,
) -> Result<NameSet, NameRefusal>
    ensures set { IfOk result (λ set. set ≡ names.now) }
    ensures none { OnOk result (list_refusal mode (known_in mode (variables_of joint.now)) [] others.now names.now ≡ None) }
    ensures refused { IfErr result (λ refusal. IsRefusal refusal (list_refusal mode (known_in mode (variables_of joint.now)) [] others.now names.now)) }
{
    let mut before = NameSet::new(alloc);
    let list = names.names();
    for name in list {
        check_name(alloc, mode, joint, &before, others, name)?;
        before.add(name.to_vec(alloc)?)?;
    }
    Ok(before)
}

fn check_name(
    alloc: Global,
    mode: Mode,
    joint: &[ScopeVar],
    before: &NameSet,
    others: &NameSet,
    name: &[u8],
) -> Result<(), NameRefusal>
    ensures none { OnOk result (name_refusal mode (known_in mode (variables_of joint.now)) before.now others.now name.now ≡ None) }
    ensures refused { IfErr result (λ refusal. IsRefusal refusal (name_refusal mode (known_in mode (variables_of joint.now)) before.now others.now name.now)) }
{
    if !is_known(mode, joint, name) {
        return Err(NameRefusal::UnknownName(name.to_vec(alloc)?));
    }
    if has_name(before, name) {
        return Err(NameRefusal::RepeatedName(name.to_vec(alloc)?));
    }
    if has_name(others, name) {
        return Err(NameRefusal::InBoth(name.to_vec(alloc)?));
    }
    if is_reserved(mode, name) {
        return Err(NameRefusal::ReservedName(name.to_vec(alloc)?));
    }
    Ok(())
}

// Whether X may have the name.
fn is_known(mode: Mode, joint: &[ScopeVar], name: &[u8]) -> bool
    ensures { result ≡ is_in (known_in mode (variables_of joint.now)) name.now }
{
    match mode {
        Mode::Sync => is_named(joint, name),
        Mode::Parallel => match joint {
            [] => false,
            [act, ..] => has_action(&act.domain, name),
        },
    }
}

fn has_name(names: &NameSet, name: &[u8]) -> bool
    ensures { result ≡ is_in names.now name.now }
{
    names.find(name).is_some()
}

// Whether automaton files use the name themselves.
fn is_reserved(mode: Mode, name: &[u8]) -> bool
    ensures { result ≡ problems.is_reserved mode name.now }
{
    match mode {
        Mode::Sync => {
            name == b"CS".as_slice() || name == b"NS".as_slice() || name == b"Acc".as_slice()
        }
        Mode::Parallel => false,
    }
}
