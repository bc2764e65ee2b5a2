//! The diagram of a table.

ghost use Rattle.std.specs.Prelude.{◌≡◌, ◌&&◌, not, length, map, All, Err, IfOk};
ghost use Rattle.std.specs.List.{list_any, AllZip};
ghost use Rattle.net_model.specs.Nets.{entry_of, row_of, table_of};
ghost use Rattle.net_model.specs.SoundNets.{IsRowOf, IsOutputEntry};
ghost use Rattle.net_model.specs.Tables.{entries_allow, row_matches, table_holds};
ghost use Rattle.node_table.specs.Table.{Grows};
ghost use Rattle.bdd_ops.specs.Meaning.{StandsFor};
ghost use Rattle.mv_encoding.specs.Spots.{AreSpots, AreLaid, variables_at, spots_at, spelled, spell_values};
ghost use Rattle.table_parts.specs.Columns.{signals_of, AreKnown, sizes_at, numbers_in};
ghost use Rattle.table_parts.specs.Held.{AreRight};
ghost use Rattle.table_parts.specs.TableParts.{IsTableOver, part_value};

use crate::entries::entries_part;
use crate::equalities::Equalities;
use crate::rows::{rows_allowing, rows_matching};
use bdd_ops::{and, not, or};
use mv_encoding::Coding;
use name_table::VarId;
use net_model::{Entry, Row, Table};
use node_table::{MkFault, Ref, Space};

// The bits that spell a value in each of these columns.
fn column_values(space: &mut Space, signals: &[Coding], columns: &[VarId]) -> Result<Ref, MkFault>
    requires laid { AreLaid space.old signals.now }
    requires columns { AreKnown signals.now columns.now }
    ensures ok { IfOk result (λ r. StandsFor space.new r (spell_values (spots_at signals.now (signals_of columns.now)))) }
    ensures grows { Grows space.old space.new }
    ensures levels { space.new.levels ≡ space.old.levels }
    ensures full { result ≡ Err MkFault.Full → length space.new.nodes ≡ space.new.limit }
{
    let mut values = space.one();
    for place in (0..columns.len()).rev() {
        let value = signals[columns[place].0 as usize].valid(space)?;
        values = and(space, value, values)?;
    }
    Ok(values)
}

// The bits at which no row matches the inputs, and these entries allow the outputs.
fn default_part(
    space: &mut Space,
    equalities: &mut Equalities,
    signals: &[Coding],
    table: &Table,
    entries: &[Entry],
) -> Result<Ref, MkFault>
    requires signals { AreSpots signals.now }
    requires laid { AreLaid space.old signals.now }
    requires table { IsTableOver (variables_at signals.now) (table_of table.now) }
    requires entries { AllZip (IsOutputEntry (sizes_at signals.now table.now.ins.items)) (sizes_at signals.now table.now.outs.items) (map entry_of entries.now) }
    requires right { AreRight signals.now space.old equalities.old }
    ensures ok { IfOk result (λ r. StandsFor space.new r (λ bits. not (list_any (row_matches (numbers_in signals.now table.now.ins.items bits)) (map row_of table.now.rows.items))
        && entries_allow (numbers_in signals.now table.now.ins.items bits) (map entry_of entries.now) (numbers_in signals.now table.now.outs.items bits))) }
    ensures grows { Grows space.old space.new }
    ensures levels { space.new.levels ≡ space.old.levels }
    ensures full { result ≡ Err MkFault.Full → length space.new.nodes ≡ space.new.limit }
{
    let matched = rows_matching(
        space,
        equalities,
        signals,
        &table.ins,
        &table.outs,
        &table.rows,
    )?;
    let unmatched = not(space, matched)?;
    let allowed = entries_part(space, equalities, signals, &table.ins, &table.outs, entries)?;
    and(space, unmatched, allowed)
}

// The bits at which the table holds, where their numbers need not be values.
fn held_part(space: &mut Space, signals: &[Coding], table: &Table) -> Result<Ref, MkFault>
    requires signals { AreSpots signals.now }
    requires laid { AreLaid space.old signals.now }
    requires table { IsTableOver (variables_at signals.now) (table_of table.now) }
    ensures ok { IfOk result (λ r. StandsFor space.new r (λ bits. table_holds (spelled signals.now bits) (table_of table.now))) }
    ensures grows { Grows space.old space.new }
    ensures levels { space.new.levels ≡ space.old.levels }
    ensures full { result ≡ Err MkFault.Full → length space.new.nodes ≡ space.new.limit }
{
    let mut equalities = Equalities::new(space.allocator());
    let allowed = rows_allowing(
        space,
        &mut equalities,
        signals,
        &table.ins,
        &table.outs,
        &table.rows,
    )?;
    match &table.otherwise {
        None => Ok(allowed),
        Some(entries) => {
            let default = default_part(space, &mut equalities, signals, table, entries)?;
            or(space, allowed, default)
        }
    }
}

/// The bits that spell a value in each column of a table and at which the table holds. `signals` has a coding of one variable
/// for each signal of the network, by its number, and the levels of all of them are there.
///
/// Rows are disjoined by halves, so that of n rows each goes through log n disjunctions, and the time grows about as n. The
/// equality of an input column and a column that asks for its value has about three nodes for each value, and is built once
/// in a call.
///
/// It answers `Full` where a new node was needed and the space was full, and `Memory` where there was none left. After either
/// each valid ref is valid still, and has its old value.
pub fn table_part(space: &mut Space, signals: &[Coding], table: &Table) -> Result<Ref, MkFault>
    requires signals { AreSpots signals.now }
    requires laid { AreLaid space.old signals.now }
    requires table { IsTableOver (variables_at signals.now) (table_of table.now) }
    ensures ok { IfOk result (λ r. StandsFor space.new r (part_value signals.now (table_of table.now))) }
    ensures grows { Grows space.old space.new }
    ensures levels { space.new.levels ≡ space.old.levels }
    ensures full { result ≡ Err MkFault.Full → length space.new.nodes ≡ space.new.limit }
{
    let held = held_part(space, signals, table)?;
    let outs = column_values(space, signals, &table.outs)?;
    let ins = column_values(space, signals, &table.ins)?;
    let values = and(space, ins, outs)?;
    and(space, values, held)
}
