//! The reset tables.

ghost use Rattle.std.specs.Prelude.{◌≡◌, ◌↔◌, All, Contains, IsTrue, IfOk};
ghost use Rattle.net_model.specs.Conditions.{latch_outputs, Varies, IsReset};
ghost use Rattle.net_model.specs.Nets.{table_of, net_of};
ghost use Rattle.net_model.specs.Nets as nets;
ghost use Rattle.net_model.specs.SoundNets.{HasKnownSignals};
ghost use Rattle.net_conditions.specs.Accepted.{is_reset_by};
ghost use Rattle.net_conditions.specs.Marks.{IsSetOf};

use crate::signals::{Signals, latch_output_signals};
use crate::varying::varying_signals;
use net_model::{Net, Table};
use std::alloc::{AllocError, Global};

/// Whether a reset table has no input of the first set, the signals that aren't constant, and its outputs are all in the
/// second, the latch outputs.
pub fn is_reset(table: &Table, varying: &Signals, states: &Signals) -> bool
    ensures marks { result ≡ is_reset_by varying.now states.now table.now }
    ensures reset { (net : nets.Net) → IsSetOf varying.now (Varies net) → IsSetOf states.now (Contains (latch_outputs net))
        → IsTrue result ↔ IsReset net (table_of table.now) }
{
    !varying.has_any(&table.ins) && states.has_all(&table.outs)
}

/// Whether each reset table sets latch outputs by constant signals.
pub fn are_resets(alloc: Global, net: &Net) -> Result<bool, AllocError>
    requires { HasKnownSignals (net_of net.now) }
    ensures { IfOk result (λ good. IsTrue good ↔ All (IsReset (net_of net.now)) (net_of net.now).resets) }
{
    let varying = varying_signals(alloc, net)?;
    let states = latch_output_signals(alloc, net)?;
    for table in &net.resets {
        if !is_reset(table, &varying, &states) {
            return Ok(false);
        }
    }
    Ok(true)
}
