//! The variables of a network's letters, with their names and domains.

ghost use Rattle.std.specs.Prelude.{◌≡◌, ◌<◌, ◌≤◌, true, length, map, vec_len, All, IfOk};
ghost use Rattle.name_table.specs.ScopeVars.{variable_of, variables_of, variable_at, chosen_of};
ghost use Rattle.name_table.specs.Variables.{names_of, are_different};
ghost use Rattle.net_model.specs.NetLanguages.{letters_of};
ghost use Rattle.net_model.specs.Nets.{net_of};
ghost use Rattle.net_model.specs.Parts.{actions_of};
ghost use Rattle.net_model.specs.Outlines.{IsWired};

use name_table::{Names, ScopeVar, VarId};
use net_model::Net;
use std::alloc::{AllocError, Global};

/// The variables of the network's letters.
pub fn letter_vars(alloc: Global, net: &Net) -> Result<Vec<ScopeVar>, AllocError>
    requires { IsWired (net_of net.now) }
    ensures vars { IfOk result (λ vars. variables_of vars.items ≡ letters_of (net_of net.now)) }
    ensures few { IfOk result (λ vars. vec_len vars ≤ 4096) }
    ensures different { IfOk result (λ vars. are_different (names_of (variables_of vars.items)) ≡ true) }
    ensures few_actions { IfOk result (λ vars. length (actions_of (variables_of vars.items)) ≤ 65536) }
{
    let signals = net.letters(alloc)?;
    let vars = chosen_vars(alloc, &net.names, &signals)?;
    Ok(vars)
}

// The variables of these numbers, in their order.
fn chosen_vars(alloc: Global, names: &Names, signals: &[VarId]) -> Result<Vec<ScopeVar>, AllocError>
    requires { All (λ var. var.0 < length names.now) signals.now }
    ensures { IfOk result (λ vars. variables_of vars.items ≡ chosen_of names.now (map (λ var. var.0) signals.now)) }
{
    let mut vars = Vec::new(alloc);
    for signal in signals {
        let var = chosen_var(alloc, names, *signal)?;
        vars.push(var)?;
    }
    Ok(vars)
}

fn chosen_var(alloc: Global, names: &Names, signal: VarId) -> Result<ScopeVar, AllocError>
    requires { signal.0 < length names.now }
    ensures { IfOk result (λ var. variable_of var ≡ variable_at names.now signal.0) }
{
    let name = names.name(signal).unwrap().to_vec(alloc)?;
    let domain = names.domain(signal).unwrap().clone()?;
    Ok(ScopeVar { name, domain })
}
