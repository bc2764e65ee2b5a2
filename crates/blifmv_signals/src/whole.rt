//! What the tests of a line want to know of the whole network.

ghost use Rattle.std.specs.Prelude.{IfOk};
ghost use Rattle.net_model.specs.Nets.{net_of};
ghost use Rattle.net_model.specs.SoundNets.{HasKnownSignals};
ghost use Rattle.blifmv_signals.specs.Marked.{IsWhole};

use net_conditions::{
    Signals, driven_signals, is_acceptance_met, latch_output_signals, varying_signals,
};
use net_model::Net;
use std::alloc::{AllocError, Global};

/// Which signals of a network are driven, which vary, which are latch outputs, and whether the condition on `Acc` holds.
#[derive(Drop)]
pub struct Whole {
    pub driven: Signals,
    pub varying: Signals,
    pub latches: Signals,
    pub acceptance: bool,
}

impl Whole {
    // Of this network.
    pub(crate) fn of(alloc: Global, net: &Net) -> Result<Whole, AllocError>
        requires { HasKnownSignals (net_of net.now) }
        ensures { IfOk result (IsWhole (net_of net.now)) }
    {
        let driven = driven_signals(alloc, net)?;
        let varying = varying_signals(alloc, net)?;
        let latches = latch_output_signals(alloc, net)?;
        let acceptance = is_acceptance_met(alloc, net)?;
        Ok(Whole {
            driven,
            varying,
            latches,
            acceptance,
        })
    }
}
