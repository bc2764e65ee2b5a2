//! All conditions together.

ghost use Rattle.std.specs.Prelude.{◌≤◌, ◌<◌, ◌↔◌, ℕ, nat_eq, count_by, All, IsTrue, IfOk};
ghost use Rattle.std.specs.List.{flat_map};
ghost use Rattle.net_model.specs.Conditions.{times_driven, uses, MeetsConditions};
ghost use Rattle.net_model.specs.Nets.{net_of};
ghost use Rattle.net_model.specs.SoundNets.{HasKnownSignals};

use crate::acceptance::is_acceptance_met;
use crate::latches::have_equal_sizes;
use crate::resets::are_resets;
use crate::signal_lists;
use crate::signals::{are_distinct, driven_signals};
use net_model::Net;
use std::alloc::{AllocError, Global};

/// Whether the network meets all conditions on its signals, latches and resets.
pub fn meets_conditions(alloc: Global, net: &Net) -> Result<bool, AllocError>
    requires { HasKnownSignals (net_of net.now) }
    ensures { IfOk result (λ good. IsTrue good ↔ MeetsConditions (net_of net.now)) }
{
    if !is_driven_once(alloc, net)? {
        return Ok(false);
    }
    if !are_uses_driven(alloc, net)? {
        return Ok(false);
    }
    if !have_equal_sizes(net) {
        return Ok(false);
    }
    if !is_reset_once(alloc, net)? {
        return Ok(false);
    }
    if !are_resets(alloc, net)? {
        return Ok(false);
    }
    is_acceptance_met(alloc, net)
}

/// Whether no signal is driven twice.
pub fn is_driven_once(alloc: Global, net: &Net) -> Result<bool, AllocError>
    requires { HasKnownSignals (net_of net.now) }
    ensures { IfOk result (λ good. IsTrue good ↔ ((signal : ℕ) → times_driven (net_of net.now) signal ≤ 1)) }
{
    let drives = signal_lists::drives(alloc, net)?;
    are_distinct(alloc, net.names.len(), &drives)
}

/// Whether each signal that is used is driven.
pub fn are_uses_driven(alloc: Global, net: &Net) -> Result<bool, AllocError>
    requires { HasKnownSignals (net_of net.now) }
    ensures { IfOk result (λ good. IsTrue good ↔ All (λ signal. 0 < times_driven (net_of net.now) signal) (uses (net_of net.now))) }
{
    let driven = driven_signals(alloc, net)?;
    let uses = signal_lists::uses(alloc, net)?;
    Ok(driven.has_all(&uses))
}

/// Whether no latch is reset twice.
pub fn is_reset_once(alloc: Global, net: &Net) -> Result<bool, AllocError>
    requires { HasKnownSignals (net_of net.now) }
    ensures { IfOk result (λ good. IsTrue good ↔ ((signal : ℕ) → count_by (nat_eq signal) (flat_map (λ table. table.outs) (net_of net.now).resets) ≤ 1)) }
{
    let outputs = signal_lists::reset_outputs(alloc, net)?;
    are_distinct(alloc, net.names.len(), &outputs)
}
