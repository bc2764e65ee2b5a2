//! What the rows of a table match and allow. Rows are disjoined by halves, so that large diagrams are few.

ghost use Rattle.std.specs.Prelude.{◌≡◌, length, map, All, Err, IfOk, OnOk};
ghost use Rattle.std.specs.List.{list_any};
ghost use Rattle.net_model.specs.Nets.{row_of};
ghost use Rattle.net_model.specs.SoundNets.{IsRowOf};
ghost use Rattle.net_model.specs.Tables.{row_matches, row_allows};
ghost use Rattle.node_table.specs.Table.{Grows};
ghost use Rattle.bdd_ops.specs.Meaning.{StandsFor};
ghost use Rattle.mv_encoding.specs.Spots.{AreSpots, AreLaid};
ghost use Rattle.table_parts.specs.Columns.{AreKnown, sizes_at, numbers_in};
ghost use Rattle.table_parts.specs.Held.{AreRight};

use crate::entries::entries_part;
use crate::equalities::Equalities;
use bdd_ops::{and, or};
use mv_encoding::Coding;
use name_table::VarId;
use net_model::Row;
use node_table::{MkFault, Ref, Space};

// The bits at which a row matches the inputs.
fn row_match(
    space: &mut Space,
    equalities: &mut Equalities,
    signals: &[Coding],
    ins: &[VarId],
    outs: &[VarId],
    row: &Row,
) -> Result<Ref, MkFault>
    requires signals { AreSpots signals.now }
    requires laid { AreLaid space.old signals.now }
    requires ins { AreKnown signals.now ins.now }
    requires row { IsRowOf (sizes_at signals.now ins.now) (sizes_at signals.now outs.now) (row_of row.now) }
    requires right { AreRight signals.now space.old equalities.old }
    ensures ok { IfOk result (λ r. StandsFor space.new r (λ bits. row_matches (numbers_in signals.now ins.now bits) (row_of row.now))) }
    ensures grows { Grows space.old space.new }
    ensures levels { space.new.levels ≡ space.old.levels }
    ensures full { result ≡ Err MkFault.Full → length space.new.nodes ≡ space.new.limit }
    ensures right { OnOk result (AreRight signals.now space.new equalities.new) }
{
    entries_part(space, equalities, signals, ins, ins, &row.ins)
}

// The bits at which a row matches the inputs and allows the outputs.
fn row_part(
    space: &mut Space,
    equalities: &mut Equalities,
    signals: &[Coding],
    ins: &[VarId],
    outs: &[VarId],
    row: &Row,
) -> Result<Ref, MkFault>
    requires signals { AreSpots signals.now }
    requires laid { AreLaid space.old signals.now }
    requires ins { AreKnown signals.now ins.now }
    requires outs { AreKnown signals.now outs.now }
    requires row { IsRowOf (sizes_at signals.now ins.now) (sizes_at signals.now outs.now) (row_of row.now) }
    requires right { AreRight signals.now space.old equalities.old }
    ensures ok { IfOk result (λ r. StandsFor space.new r (λ bits. row_allows (numbers_in signals.now ins.now bits) (numbers_in signals.now outs.now bits) (row_of row.now))) }
    ensures grows { Grows space.old space.new }
    ensures levels { space.new.levels ≡ space.old.levels }
    ensures full { result ≡ Err MkFault.Full → length space.new.nodes ≡ space.new.limit }
    ensures right { OnOk result (AreRight signals.now space.new equalities.new) }
{
    let allowed = entries_part(space, equalities, signals, ins, outs, &row.outs)?;
    let matched = row_match(space, equalities, signals, ins, outs, row)?;
    and(space, matched, allowed)
}

/// The bits at which some row matches the inputs.
pub(crate) fn rows_matching(
    space: &mut Space,
    equalities: &mut Equalities,
    signals: &[Coding],
    ins: &[VarId],
    outs: &[VarId],
    rows: &[Row],
) -> Result<Ref, MkFault>
    requires signals { AreSpots signals.now }
    requires laid { AreLaid space.old signals.now }
    requires ins { AreKnown signals.now ins.now }
    requires rows { All (λ row. IsRowOf (sizes_at signals.now ins.now) (sizes_at signals.now outs.now) (row_of row)) rows.now }
    requires right { AreRight signals.now space.old equalities.old }
    ensures ok { IfOk result (λ r. StandsFor space.new r (λ bits. list_any (row_matches (numbers_in signals.now ins.now bits)) (map row_of rows.now))) }
    ensures grows { Grows space.old space.new }
    ensures levels { space.new.levels ≡ space.old.levels }
    ensures full { result ≡ Err MkFault.Full → length space.new.nodes ≡ space.new.limit }
    ensures right { OnOk result (AreRight signals.now space.new equalities.new) }
{
    match rows {
        [] => Ok(space.zero()),
        [row] => row_match(space, equalities, signals, ins, outs, row),
        _ => {
            let (front, back) = rows.split_at(rows.len() / 2);
            let first = rows_matching(space, equalities, signals, ins, outs, front)?;
            let second = rows_matching(space, equalities, signals, ins, outs, back)?;
            or(space, first, second)
        }
    }
}

/// The bits at which some row matches the inputs and allows the outputs.
pub(crate) fn rows_allowing(
    space: &mut Space,
    equalities: &mut Equalities,
    signals: &[Coding],
    ins: &[VarId],
    outs: &[VarId],
    rows: &[Row],
) -> Result<Ref, MkFault>
    requires signals { AreSpots signals.now }
    requires laid { AreLaid space.old signals.now }
    requires ins { AreKnown signals.now ins.now }
    requires outs { AreKnown signals.now outs.now }
    requires rows { All (λ row. IsRowOf (sizes_at signals.now ins.now) (sizes_at signals.now outs.now) (row_of row)) rows.now }
    requires right { AreRight signals.now space.old equalities.old }
    ensures ok { IfOk result (λ r. StandsFor space.new r (λ bits. list_any (row_allows (numbers_in signals.now ins.now bits) (numbers_in signals.now outs.now bits)) (map row_of rows.now))) }
    ensures grows { Grows space.old space.new }
    ensures levels { space.new.levels ≡ space.old.levels }
    ensures full { result ≡ Err MkFault.Full → length space.new.nodes ≡ space.new.limit }
    ensures right { OnOk result (AreRight signals.now space.new equalities.new) }
{
    match rows {
        [] => Ok(space.zero()),
        [row] => row_part(space, equalities, signals, ins, outs, row),
        _ => {
            let (front, back) = rows.split_at(rows.len() / 2);
            let first = rows_allowing(space, equalities, signals, ins, outs, front)?;
            let second = rows_allowing(space, equalities, signals, ins, outs, back)?;
            or(space, first, second)
        }
    }
}
