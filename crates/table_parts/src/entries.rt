//! What entries of rows and defaults allow, column by column, at all bits: also at codes past the end of a domain.

ghost use Rattle.std.specs.Prelude.{◌≡◌, ◌<◌, length, map, slice_index, All, Err, IfOk, OnOk};
ghost use Rattle.std.specs.List.{AllZip};
ghost use Rattle.name_table.specs.ScopeVars.{variable_at};
ghost use Rattle.net_model.specs.Nets.{entry_of};
ghost use Rattle.net_model.specs.Spellings.{domain_at};
ghost use Rattle.net_model.specs.SoundNets.{IsOutputEntry};
ghost use Rattle.net_model.specs.Tables.{is_value_of, entry_allows, entries_allow};
ghost use Rattle.node_table.specs.Table.{Grows};
ghost use Rattle.bdd_ops.specs.Meaning.{StandsFor};
ghost use Rattle.mv_encoding.specs.Layouts.{number_of, IsLaid};
ghost use Rattle.mv_encoding.specs.Spots.{AreSpots, AreLaid, variables_at, spelled};
ghost use Rattle.table_parts.specs.Columns.{AreKnown, sizes_at, numbers_in};
ghost use Rattle.table_parts.specs.Held.{AreRight};

use crate::equalities::{Equalities, Pair};
use bdd_ops::{and, not, or};
use mv_encoding::Coding;
use name_table::VarId;
use net_model::Entry;
use node_table::{MkFault, Ref, Space};

// The bits that spell one of these values. They are taken by halves.
fn one_of(space: &mut Space, column: &Coding, values: &[u32]) -> Result<Ref, MkFault>
    requires column { 0 < length column.now.scope }
    requires laid { IsLaid column.now space.old }
    requires values { All (λ v. v < length (variable_at column.now.scope 0).values) values.now }
    ensures ok { IfOk result (λ r. StandsFor space.new r (λ bits. is_value_of values.now (number_of column.now 0 bits))) }
    ensures grows { Grows space.old space.new }
    ensures levels { space.new.levels ≡ space.old.levels }
    ensures full { result ≡ Err MkFault.Full → length space.new.nodes ≡ space.new.limit }
{
    match values {
        [] => Ok(space.zero()),
        [value] => column.cube(space, 0, *value),
        _ => {
            let (front, back) = values.split_at(values.len() / 2);
            let first = one_of(space, column, front)?;
            let second = one_of(space, column, back)?;
            or(space, first, second)
        }
    }
}

// The bits at which an entry allows the number of its column.
fn entry_part(
    space: &mut Space,
    equalities: &mut Equalities,
    signals: &[Coding],
    ins: &[VarId],
    column: VarId,
    entry: &Entry,
) -> Result<Ref, MkFault>
    requires signals { AreSpots signals.now }
    requires laid { AreLaid space.old signals.now }
    requires ins { AreKnown signals.now ins.now }
    requires column { column.0 < length signals.now }
    requires entry { IsOutputEntry (sizes_at signals.now ins.now) (length (domain_at (variables_at signals.now) column.0)) (entry_of entry.now) }
    requires right { AreRight signals.now space.old equalities.old }
    ensures ok { IfOk result (λ r. StandsFor space.new r (λ bits. entry_allows (numbers_in signals.now ins.now bits) (entry_of entry.now) (slice_index (spelled signals.now bits) column.0))) }
    ensures grows { Grows space.old space.new }
    ensures levels { space.new.levels ≡ space.old.levels }
    ensures full { result ≡ Err MkFault.Full → length space.new.nodes ≡ space.new.limit }
    ensures right { OnOk result (AreRight signals.now space.new equalities.new) }
{
    let coding = &signals[column.0 as usize];
    match entry {
        Entry::Any => Ok(space.one()),
        Entry::Value(value) => coding.cube(space, 0, *value),
        Entry::OneOf(values) => one_of(space, coding, values),
        Entry::NotOneOf(values) => {
            let denied = one_of(space, coding, values)?;
            not(space, denied)
        }
        Entry::Equal(input) => {
            let pair = Pair {
                input: ins[*input as usize].0,
                column: column.0,
            };
            equalities.at(space, signals, &pair)
        }
    }
}

/// The bits at which each entry allows the number of its column.
pub(crate) fn entries_part(
    space: &mut Space,
    equalities: &mut Equalities,
    signals: &[Coding],
    ins: &[VarId],
    columns: &[VarId],
    entries: &[Entry],
) -> Result<Ref, MkFault>
    requires signals { AreSpots signals.now }
    requires laid { AreLaid space.old signals.now }
    requires ins { AreKnown signals.now ins.now }
    requires columns { AreKnown signals.now columns.now }
    requires entries { AllZip (IsOutputEntry (sizes_at signals.now ins.now)) (sizes_at signals.now columns.now) (map entry_of entries.now) }
    requires right { AreRight signals.now space.old equalities.old }
    ensures ok { IfOk result (λ r. StandsFor space.new r (λ bits. entries_allow (numbers_in signals.now ins.now bits) (map entry_of entries.now) (numbers_in signals.now columns.now bits))) }
    ensures grows { Grows space.old space.new }
    ensures levels { space.new.levels ≡ space.old.levels }
    ensures full { result ≡ Err MkFault.Full → length space.new.nodes ≡ space.new.limit }
    ensures right { OnOk result (AreRight signals.now space.new equalities.new) }
{
    let mut allowed = space.one();
    for place in (0..columns.len()).rev() {
        let column = columns[place];
        let here = entry_part(space, equalities, signals, ins, column, &entries[place])?;
        allowed = and(space, here, allowed)?;
    }
    Ok(allowed)
}
