//! Networks that can be handled as automata.

ghost use Rattle.std.specs.Prelude.{◌≡◌, IfErr, OnOk};
ghost use Rattle.net_model.specs.Conditions.{IsAuto};
ghost use Rattle.net_model.specs.Nets.{net_of};

use net_model::{Net, TextFault, TextKind};

/// Refuses a network that is no automaton as the format wants it. A network has no lines, so the fault's line is 0.
pub fn as_auto(net: &Net) -> Result<(), TextFault>
    ensures ok { OnOk result (IsAuto (net_of net.now)) }
    ensures refused { IfErr result (λ fault. (fault ≡ TextFault.At 0 TextKind.AccShape) × (IsAuto (net_of net.now) → ⊥)) }
{
    if net.is_auto() {
        Ok(())
    } else {
        Err(TextFault::At {
            line: 0,
            kind: TextKind::AccShape,
        })
    }
}
