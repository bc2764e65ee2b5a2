//! The network of a text.

ghost use Rattle.std.specs.Prelude.{◌≡◌, ℕ, List, IfOk, OnOk};
ghost use Rattle.net_model.specs.Nets as nets;
ghost use Rattle.net_model.specs.Nets.{net_of};
ghost use Rattle.net_model.specs.NetTexts.{StandsForNet};
ghost use Rattle.net_model.specs.SoundNets.{IsSound};
ghost use Rattle.blifmv_reader.specs.Told.{FindsNetFault};

use blifmv_names::read_names;
use blifmv_signals::check_signals;
use blifmv_tables::read_tables;
use net_model::{Net, TextFault};
use std::alloc::Global;

/// The network that the bytes stand for. Else their first fault: of an earlier pass before a later one, in a pass that of
/// the first line, and on one line the kind that stands first in `docs/FORMATS.md`. Reading is meant to take time linear
/// in the text, and memory for names and rows alone.
pub fn read_net(alloc: Global, bytes: &[u8]) -> Result<Net, TextFault>
    ensures stands { IfOk result (λ net. StandsForNet bytes.now (net_of net)) }
    ensures only { IfOk result (λ net. (other : nets.Net) → StandsForNet bytes.now other → net_of net ≡ other) }
    ensures sound { IfOk result (λ net. IsSound (net_of net)) }
    ensures fault { FindsNetFault result bytes.now }
{
    let names = read_names(alloc, bytes)?;
    let net = read_tables(alloc, bytes, names)?;
    match check_signals(alloc, bytes, &net) {
        Ok(()) => Ok(net),
        Err(fault) => Err(fault),
    }
}

/// Bytes stand for one network at most.
pub fn bytes_stand_for_one_net()
    ensures { (bytes : List ℕ) (net other : nets.Net) → StandsForNet bytes net → StandsForNet bytes other → net ≡ other }
{}
