//! The signals that aren't constant.

ghost use Rattle.std.specs.Prelude.{◌≡◌, ◌<◌, length, All, IfOk};
ghost use Rattle.std.specs.Bool.{OnFalse};
ghost use Rattle.net_model.specs.Conditions.{Varies};
ghost use Rattle.net_model.specs.Nets.{table_of, net_of};
ghost use Rattle.net_model.specs.SoundNets.{HasKnownSignals};
ghost use Rattle.net_conditions.specs.Marks.{IsSetOf, Adds, GrowsIf};
ghost use Rattle.net_conditions.specs.Rounds.{outputs_by, AreVarying, IsClosed};

use crate::signal_lists;
use crate::signals::Signals;
use crate::spreading::spread;
use net_model::{Net, Table};
use std::alloc::{AllocError, Global};

/// The signals that aren't constant. They spread from the inputs and the latch outputs, each through the tables that read
/// it, which takes a time that grows as the columns of all tables. Rounds over the tables then add the outputs that are
/// missing until a round adds none, and the first finds none missing.
pub fn varying_signals(alloc: Global, net: &Net) -> Result<Signals, AllocError>
    requires { HasKnownSignals (net_of net.now) }
    ensures { IfOk result (λ set. IsSetOf set (Varies (net_of net.now))) }
{
    let sources = signal_lists::sources(alloc, net)?;
    let mut varying = Signals::of(alloc, net.names.len(), &sources)?;
    spread(alloc, net, sources, &mut varying)?;
    while add_outputs(net, &mut varying) {}
    Ok(varying)
}

/// Adds the outputs of each table of which the set has an input, and says whether one of them is new.
fn add_outputs(net: &Net, varying: &mut Signals) -> bool
    requires known { HasKnownSignals (net_of net.now) }
    requires varying { AreVarying (net_of net.now) varying.old }
    ensures varying { AreVarying (net_of net.now) varying.new }
    ensures grown { GrowsIf result varying.old varying.new }
    ensures closed { OnFalse result (IsClosed (net_of net.now).tables varying.new) }
{
    let mut grown = false;
    for table in &net.tables {
        if add_outputs_of(table, varying) {
            grown = true;
        }
    }
    grown
}

/// Adds the outputs of a table, where the set has one of its inputs, and says whether one of them is new.
pub(crate) fn add_outputs_of(table: &Table, varying: &mut Signals) -> bool
    requires { All (λ v. v < length varying.old) (table_of table.now).outs }
    ensures added { Adds varying.old (outputs_by varying.old (table_of table.now)) varying.new }
    ensures grown { GrowsIf result varying.old varying.new }
{
    varying.has_any(&table.ins) && varying.insert_all(&table.outs)
}
