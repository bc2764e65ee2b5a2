//! The one thing that the tests of this crate want of a network: its signals have names.

ghost use Rattle.std.specs.Prelude.{◌<◌, ◌↔◌, [], ◌∷◌, map, All, IsTrue};
ghost use Rattle.net_model.specs.Conditions.{columns_of};
ghost use Rattle.net_model.specs.Nets.{table_of, latch_of, net_of};
ghost use Rattle.net_model.specs.SoundNets.{HasKnownSignals};

use name_table::VarId;
use net_model::{Latch, Net, Table};

/// Whether each signal of the network has a name. What a reader makes is so by the way it is made.
pub fn has_known_signals(net: &Net) -> bool
    ensures { IsTrue result ↔ HasKnownSignals (net_of net.now) }
{
    let count = net.names.len();
    are_below(count, &net.inputs)
        && are_below(count, &net.outputs)
        && have_columns_below(count, &net.tables)
        && have_ends_below(count, &net.latches)
        && have_columns_below(count, &net.resets)
}

fn are_below(count: u32, signals: &[VarId]) -> bool
    ensures { IsTrue result ↔ All (λ signal. signal < count) (map (λ v. v.0) signals.now) }
{
    signals.iter().all(|signal| signal.0 < count)
}

fn has_columns_below(count: u32, table: &Table) -> bool
    ensures { IsTrue result ↔ All (λ signal. signal < count) (columns_of (table_of table.now)) }
{
    are_below(count, &table.ins) && are_below(count, &table.outs)
}

fn have_columns_below(count: u32, tables: &[Table]) -> bool
    ensures { IsTrue result ↔ All (λ table. All (λ signal. signal < count) (columns_of table)) (map table_of tables.now) }
{
    tables.iter().all(|table| has_columns_below(count, table))
}

fn has_ends_below(count: u32, latch: &Latch) -> bool
    ensures { IsTrue result ↔ All (λ signal. signal < count) (latch.now.input.0 ∷ latch.now.output.0 ∷ []) }
{
    latch.input.0 < count && latch.output.0 < count
}

fn have_ends_below(count: u32, latches: &[Latch]) -> bool
    ensures { IsTrue result ↔ All (λ latch. All (λ signal. signal < count) (latch.input ∷ latch.output ∷ [])) (map latch_of latches.now) }
{
    latches.iter().all(|latch| has_ends_below(count, latch))
}
