//! Where the rows of a machine lead. Rows are disjoined by halves, so that large diagrams are few.

ghost use Rattle.std.specs.Prelude.{◌≡◌, ◌<◌, ◌++◌, length, map, All, Err, IfOk};
ghost use Rattle.std.specs.List.{list_any};
ghost use Rattle.net_model.specs.Machines.{kiss_row_of, bit_allows, bits_allow, is_state, row_leads, IsKnownState};
ghost use Rattle.node_table.specs.Table.{Grows};
ghost use Rattle.bdd_ops.specs.Meaning.{StandsFor};
ghost use Rattle.mv_encoding.specs.Layouts.{number_of, IsLaid};
ghost use Rattle.mv_encoding.specs.Spots.{AreLaid, spelled};
ghost use Rattle.machine_parts.specs.Coded.{size_of, IsBinary, AreCoded, IsRowOver};

use bdd_ops::{and, or};
use mv_encoding::Coding;
use net_model::{Bit, KissRow};
use node_table::{MkFault, Ref, Space};

// The bits at which a character allows the number of its column.
fn bit_part(space: &mut Space, column: &Coding, bit: Bit) -> Result<Ref, MkFault>
    requires column { IsBinary column.now }
    requires laid { IsLaid column.now space.old }
    ensures ok { IfOk result (λ r. StandsFor space.new r (λ bits. bit_allows bit (number_of column.now 0 bits))) }
    ensures grows { Grows space.old space.new }
    ensures levels { space.new.levels ≡ space.old.levels }
    ensures full { result ≡ Err MkFault.Full → length space.new.nodes ≡ space.new.limit }
{
    match bit {
        Bit::Zero => column.cube(space, 0, 0),
        Bit::One => column.cube(space, 0, 1),
        Bit::Either => Ok(space.one()),
    }
}

// The bits at which each character allows the number of its column. The last column comes first, so columns that go from
// the topmost level down cost least.
fn bits_part(space: &mut Space, columns: &[Coding], pattern: &[Bit]) -> Result<Ref, MkFault>
    requires columns { All IsBinary columns.now }
    requires laid { AreLaid space.old columns.now }
    requires width { length pattern.now ≡ length columns.now }
    ensures ok { IfOk result (λ r. StandsFor space.new r (λ bits. bits_allow pattern.now (spelled columns.now bits))) }
    ensures grows { Grows space.old space.new }
    ensures levels { space.new.levels ≡ space.old.levels }
    ensures full { result ≡ Err MkFault.Full → length space.new.nodes ≡ space.new.limit }
{
    let mut allowed = space.one();
    for place in (0..pattern.len()).rev() {
        let here = bit_part(space, &columns[place], pattern[place])?;
        allowed = and(space, here, allowed)?;
    }
    Ok(allowed)
}

// The bits at which both patterns of a row allow the letter.
fn letter_part(space: &mut Space, columns: &[Coding], row: &KissRow) -> Result<Ref, MkFault>
    requires columns { All IsBinary columns.now }
    requires laid { AreLaid space.old columns.now }
    requires width { length (row.now.input.items ++ row.now.output.items) ≡ length columns.now }
    ensures ok { IfOk result (λ r. StandsFor space.new r (λ bits. bits_allow (row.now.input.items ++ row.now.output.items) (spelled columns.now bits))) }
    ensures grows { Grows space.old space.new }
    ensures levels { space.new.levels ≡ space.old.levels }
    ensures full { result ≡ Err MkFault.Full → length space.new.nodes ≡ space.new.limit }
{
    let (inputs, outputs) = columns.split_at(row.input.len());
    let output = bits_part(space, outputs, &row.output)?;
    let input = bits_part(space, inputs, &row.input)?;
    and(space, input, output)
}

// The bits at which a code spells this state, or all bits where there is none.
fn state_part(space: &mut Space, code: &Coding, state: Option<u32>) -> Result<Ref, MkFault>
    requires code { 0 < length code.now.scope }
    requires laid { IsLaid code.now space.old }
    requires state { IsKnownState (size_of code.now) state }
    ensures ok { IfOk result (λ r. StandsFor space.new r (λ bits. is_state state (number_of code.now 0 bits))) }
    ensures grows { Grows space.old space.new }
    ensures levels { space.new.levels ≡ space.old.levels }
    ensures full { result ≡ Err MkFault.Full → length space.new.nodes ≡ space.new.limit }
{
    match state {
        Some(state) => code.cube(space, 0, state),
        None => Ok(space.one()),
    }
}

// The bits at which a row leads from the present state to the next one by the letter.
fn row_part(
    space: &mut Space,
    columns: &[Coding],
    present: &Coding,
    next: &Coding,
    row: &KissRow,
) -> Result<Ref, MkFault>
    requires coded { AreCoded space.old columns.now present.now next.now }
    requires row { IsRowOver columns.now present.now next.now (kiss_row_of row.now) }
    ensures ok { IfOk result (λ r. StandsFor space.new r (λ bits. row_leads (number_of present.now 0 bits) (spelled columns.now bits) (number_of next.now 0 bits) (kiss_row_of row.now))) }
    ensures grows { Grows space.old space.new }
    ensures levels { space.new.levels ≡ space.old.levels }
    ensures full { result ≡ Err MkFault.Full → length space.new.nodes ≡ space.new.limit }
{
    let letter = letter_part(space, columns, row)?;
    let to = state_part(space, next, row.next)?;
    let from = state_part(space, present, row.present)?;
    let behind = and(space, to, letter)?;
    and(space, from, behind)
}

/// The bits at which some row leads from the present state to the next one by the letter.
pub(crate) fn rows_part(
    space: &mut Space,
    columns: &[Coding],
    present: &Coding,
    next: &Coding,
    rows: &[KissRow],
) -> Result<Ref, MkFault>
    requires coded { AreCoded space.old columns.now present.now next.now }
    requires rows { All (λ row. IsRowOver columns.now present.now next.now (kiss_row_of row)) rows.now }
    ensures ok { IfOk result (λ r. StandsFor space.new r (λ bits. list_any (row_leads (number_of present.now 0 bits) (spelled columns.now bits) (number_of next.now 0 bits)) (map kiss_row_of rows.now))) }
    ensures grows { Grows space.old space.new }
    ensures levels { space.new.levels ≡ space.old.levels }
    ensures full { result ≡ Err MkFault.Full → length space.new.nodes ≡ space.new.limit }
{
    match rows {
        [] => Ok(space.zero()),
        [row] => row_part(space, columns, present, next, row),
        _ => {
            let (front, back) = rows.split_at(rows.len() / 2);
            let first = rows_part(space, columns, present, next, front)?;
            let second = rows_part(space, columns, present, next, back)?;
            or(space, first, second)
        }
    }
}
