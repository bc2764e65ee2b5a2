//! The variables of the joint letters.

ghost use Rattle.std.specs.Prelude.{◌≡◌, ◌<◌, ◌≤◌, ◌++◌, [], ◌∷◌, Some, true, not, length, map, filter, slice_get, IfOk, OnOk};
ghost use Rattle.name_table.specs.ScopeVars.{variables_of};
ghost use Rattle.name_table.specs.Variables as variables;
ghost use Rattle.name_table.specs.Variables.{is_in};
ghost use Rattle.net_problem.specs.Building.{joint_in};
ghost use Rattle.net_model.specs.Parts.{actions_of};
ghost use Rattle.net_model.specs.Topologies as topologies;
ghost use Rattle.net_model.specs.Topologies.{joint_scope};

use name_table::{Domain, DomainFault, ScopeVar};
use net_model::Mode;
use std::alloc::{AllocError, Global};

/// Whether some variable has this name.
pub fn is_named(vars: &[ScopeVar], name: &[u8]) -> bool
    ensures { result ≡ topologies.is_named (variables_of vars.now) name.now }
{
    for var in vars {
        if var.name.as_slice() == name {
            return true;
        }
    }
    false
}

/// The variables of the joint letters of F and S, which have these variables: in parallel mode one at least.
pub fn joint_of(
    alloc: Global,
    mode: Mode,
    f: &[ScopeVar],
    s: &[ScopeVar],
) -> Result<Vec<ScopeVar>, AllocError>
    requires one_of_f { mode ≡ Mode.Parallel → 0 < length f.now }
    requires one_of_s { mode ≡ Mode.Parallel → 0 < length s.now }
    requires few_of_f { length (actions_of (variables_of f.now)) ≤ 65536 }
    requires few_of_s { length (actions_of (variables_of s.now)) ≤ 65536 }
    ensures { IfOk result (λ joint. variables_of joint.items ≡ joint_in mode (variables_of f.now) (variables_of s.now)) }
{
    match mode {
        Mode::Sync => joint_vars(alloc, f, s),
        Mode::Parallel => joint_action(alloc, f, s),
    }
}

// The variable of the joint actions.
fn joint_action(alloc: Global, f: &[ScopeVar], s: &[ScopeVar]) -> Result<Vec<ScopeVar>, AllocError>
    requires one_of_f { 0 < length f.now }
    requires one_of_s { 0 < length s.now }
    requires few_of_f { length (actions_of (variables_of f.now)) ≤ 65536 }
    requires few_of_s { length (actions_of (variables_of s.now)) ≤ 65536 }
    ensures { IfOk result (λ joint. variables_of joint.items ≡ topologies.acting (topologies.joint_actions (actions_of (variables_of f.now)) (actions_of (variables_of s.now)))) }
{
    let actions = joint_actions(alloc, &f[0].domain, &s[0].domain)?;
    acting(alloc, actions)
}

// F's variables in their order, and then those of S that F doesn't have.
fn joint_vars(alloc: Global, f: &[ScopeVar], s: &[ScopeVar]) -> Result<Vec<ScopeVar>, AllocError>
    ensures { IfOk result (λ joint. variables_of joint.items ≡ joint_scope (variables_of f.now) (variables_of s.now)) }
{
    let mut joint = Vec::new(alloc);
    'of_f: for var in f {
        joint.push(var.clone()?)?;
    }
    'of_s: for other in s {
        if !is_named(f, &other.name) {
            joint.push(other.clone()?)?;
        }
    }
    Ok(joint)
}

// F's actions in their order, and then those of S that F doesn't have.
fn joint_actions(alloc: Global, f: &Domain, s: &Domain) -> Result<Vec<Vec<u8>>, AllocError>
    requires few_of_f { length f.now ≤ 65536 }
    requires few_of_s { length s.now ≤ 65536 }
    ensures actions { IfOk result (λ actions. map (λ n. n.items) actions.items ≡ topologies.joint_actions f.now s.now) }
    ensures some { IfOk result (λ actions. 0 < length actions.items) }
    ensures few { IfOk result (λ actions. length actions.items ≤ 131072) }
    ensures different { IfOk result (λ actions. variables.are_different (map (λ n. n.items) actions.items) ≡ true) }
{
    let mut actions = Vec::new(alloc);
    'of_f: for k in 0..f.len() {
        actions.push(action_at(alloc, f, k)?)?;
    }
    'of_s: for k in 0..s.len() {
        push_new(&mut actions, f, action_at(alloc, s, k)?)?;
    }
    Ok(actions)
}

// Puts an action at the end that F doesn't have.
fn push_new(actions: &mut Vec<Vec<u8>>, f: &Domain, action: Vec<u8>) -> Result<(), AllocError>
    ensures { OnOk result (map (λ n. n.items) actions.new.items
        ≡ map (λ n. n.items) actions.old.items ++ filter (λ a. not (is_in f.now a)) (action.items ∷ [])) }
{
    if !has_action(f, action.as_slice()) {
        actions.push(action)?;
    }
    Ok(())
}

fn action_at(alloc: Global, actions: &Domain, k: u32) -> Result<Vec<u8>, AllocError>
    requires { k < length actions.now }
    ensures { IfOk result (λ action. slice_get actions.now k ≡ Some action.items) }
{
    let name = actions.name(k).unwrap();
    name.as_slice().to_vec(alloc)
}

/// Whether the name is one of the actions.
pub fn has_action(actions: &Domain, name: &[u8]) -> bool
    ensures { result ≡ is_in actions.now name.now }
{
    actions.value_index(name).is_some()
}

/// The variable of which each action is a value, by itself.
pub fn acting(alloc: Global, actions: Vec<Vec<u8>>) -> Result<Vec<ScopeVar>, AllocError>
    requires some { 0 < length actions.items }
    requires few { length actions.items ≤ 131072 }
    requires different { variables.are_different (map (λ n. n.items) actions.items) ≡ true }
    ensures { IfOk result (λ vars. variables_of vars.items ≡ topologies.acting (map (λ n. n.items) actions.items)) }
{
    let domain = acts(alloc, actions)?;
    let name = b"act".to_vec(alloc)?;
    let mut vars = Vec::new(alloc);
    vars.push(ScopeVar { name, domain })?;
    Ok(vars)
}

fn acts(alloc: Global, actions: Vec<Vec<u8>>) -> Result<Domain, AllocError>
    requires some { 0 < length actions.items }
    requires few { length actions.items ≤ 131072 }
    requires different { variables.are_different (map (λ n. n.items) actions.items) ≡ true }
    ensures { IfOk result (λ domain. domain ≡ map (λ n. n.items) actions.items) }
{
    match Domain::of_names(alloc, actions) {
        Ok(domain) => Ok(domain),
        Err(DomainFault::Memory) => Err(AllocError),
        Err(DomainFault::Empty | DomainFault::Repeated | DomainFault::TooMany) => unreachable!(),
    }
}
