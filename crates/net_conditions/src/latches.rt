//! The two signals of a latch have as many values.

ghost use Rattle.std.specs.Prelude.{◌≡◌, ◌↔◌, length, All, IsTrue};
ghost use Rattle.net_model.specs.Nets.{latch_of, net_of};
ghost use Rattle.net_model.specs.Spellings.{domain_at};

use name_table::{Names, VarId};
use net_model::{Latch, Net};

/// How many values a signal has, and 0 where it is unknown.
pub(crate) fn size_of(names: &Names, signal: VarId) -> u32
    ensures { result ≡ length (domain_at names.now signal.0) }
{
    match names.domain(signal) {
        Some(domain) => domain.len(),
        None => 0,
    }
}

/// Whether the two signals of a latch have as many values.
pub fn has_equal_sizes(net: &Net, latch: &Latch) -> bool
    ensures { IsTrue result ↔ (length (domain_at net.now.names latch.now.input.0) ≡ length (domain_at net.now.names latch.now.output.0)) }
{
    size_of(&net.names, latch.input) == size_of(&net.names, latch.output)
}

/// Whether the two signals of each latch have as many values.
pub fn have_equal_sizes(net: &Net) -> bool
    ensures { IsTrue result ↔ All (λ latch. length (domain_at net.now.names latch.input) ≡ length (domain_at net.now.names latch.output)) (net_of net.now).latches }
{
    net.latches.iter().all(|latch| has_equal_sizes(net, latch))
}
