//! The signals of a network in lists, as often as they stand there.

ghost use Rattle.std.specs.Prelude.{◌≡◌, [], ◌∷◌, ◌++◌, map, IfOk, OnOk};
ghost use Rattle.std.specs.List.{flat_map};
ghost use Rattle.net_model.specs.Nets.{table_of, latch_of, net_of};
ghost use Rattle.net_model.specs.Conditions as conditions;
ghost use Rattle.net_model.specs.Conditions.{columns_of};

use name_table::VarId;
use net_model::{Latch, Net, Table};
use std::alloc::{AllocError, Global};

/// The signals that are driven, each as often as it is.
pub(crate) fn drives(alloc: Global, net: &Net) -> Result<Vec<VarId>, AllocError>
    ensures { IfOk result (λ signals. map (λ v. v.0) signals.items ≡ conditions.drives (net_of net.now)) }
{
    let mut signals = Vec::from_slice(alloc, &net.inputs)?;
    push_outputs(&net.tables, &mut signals)?;
    push_latch_outputs(&net.latches, &mut signals)?;
    Ok(signals)
}

/// The signals that are used, each as often as it is.
pub(crate) fn uses(alloc: Global, net: &Net) -> Result<Vec<VarId>, AllocError>
    ensures { IfOk result (λ signals. map (λ v. v.0) signals.items ≡ conditions.uses (net_of net.now)) }
{
    let mut signals = Vec::from_slice(alloc, &net.outputs)?;
    push_columns(&net.tables, &mut signals)?;
    push_columns(&net.resets, &mut signals)?;
    push_ends(&net.latches, &mut signals)?;
    Ok(signals)
}

/// The outputs of the latches.
pub(crate) fn latch_outputs(alloc: Global, net: &Net) -> Result<Vec<VarId>, AllocError>
    ensures { IfOk result (λ signals. map (λ v. v.0) signals.items ≡ conditions.latch_outputs (net_of net.now)) }
{
    let mut signals = Vec::new(alloc);
    push_latch_outputs(&net.latches, &mut signals)?;
    Ok(signals)
}

/// The inputs, and the outputs of the latches.
pub(crate) fn sources(alloc: Global, net: &Net) -> Result<Vec<VarId>, AllocError>
    ensures { IfOk result (λ signals. map (λ v. v.0) signals.items
        ≡ (net_of net.now).inputs ++ conditions.latch_outputs (net_of net.now)) }
{
    let mut signals = Vec::from_slice(alloc, &net.inputs)?;
    push_latch_outputs(&net.latches, &mut signals)?;
    Ok(signals)
}

/// The outputs of the reset tables.
pub(crate) fn reset_outputs(alloc: Global, net: &Net) -> Result<Vec<VarId>, AllocError>
    ensures { IfOk result (λ signals. map (λ v. v.0) signals.items
        ≡ flat_map (λ table. table.outs) (net_of net.now).resets) }
{
    let mut signals = Vec::new(alloc);
    push_outputs(&net.resets, &mut signals)?;
    Ok(signals)
}

fn push_outputs(tables: &[Table], signals: &mut Vec<VarId>) -> Result<(), AllocError>
    ensures { OnOk result (map (λ v. v.0) signals.new.items
        ≡ map (λ v. v.0) signals.old.items ++ flat_map (λ table. table.outs) (map table_of tables.now)) }
{
    for table in tables {
        signals.extend_from_slice(&table.outs)?;
    }
    Ok(())
}

fn push_columns(tables: &[Table], signals: &mut Vec<VarId>) -> Result<(), AllocError>
    ensures { OnOk result (map (λ v. v.0) signals.new.items
        ≡ map (λ v. v.0) signals.old.items ++ flat_map columns_of (map table_of tables.now)) }
{
    for table in tables {
        signals.extend_from_slice(&table.ins)?;
        signals.extend_from_slice(&table.outs)?;
    }
    Ok(())
}

fn push_latch_outputs(latches: &[Latch], signals: &mut Vec<VarId>) -> Result<(), AllocError>
    ensures { OnOk result (map (λ v. v.0) signals.new.items
        ≡ map (λ v. v.0) signals.old.items ++ map (λ latch. latch.output) (map latch_of latches.now)) }
{
    for latch in latches {
        signals.push(latch.output)?;
    }
    Ok(())
}

/// Adds the input and the output of each latch.
fn push_ends(latches: &[Latch], signals: &mut Vec<VarId>) -> Result<(), AllocError>
    ensures { OnOk result (map (λ v. v.0) signals.new.items
        ≡ map (λ v. v.0) signals.old.items ++ flat_map (λ latch. latch.input ∷ latch.output ∷ []) (map latch_of latches.now)) }
{
    for latch in latches {
        signals.push(latch.input)?;
        signals.push(latch.output)?;
    }
    Ok(())
}
