//! The diagram of a machine's steps.

ghost use Rattle.std.specs.Prelude.{◌≡◌, ◌++◌, ◌∷◌, [], length, Err, IfOk};
ghost use Rattle.net_model.specs.Machines.{machine_of, IsSoundMachine};
ghost use Rattle.node_table.specs.Table.{Grows};
ghost use Rattle.bdd_ops.specs.Meaning.{StandsFor};
ghost use Rattle.mv_encoding.specs.Spots.{spell_values};
ghost use Rattle.machine_parts.specs.Coded.{AreCoded};
ghost use Rattle.machine_parts.specs.MachineParts.{machine_value, IsMachineLaid};

use crate::rows::rows_part;
use bdd_ops::and;
use mv_encoding::{Coding, all_values};
use net_model::Machine;
use node_table::{MkFault, Ref, Space};

// The bits that spell a value in each column and two states.
fn values_part(
    space: &mut Space,
    columns: &[Coding],
    present: &Coding,
    next: &Coding,
) -> Result<Ref, MkFault>
    requires { AreCoded space.old columns.now present.now next.now }
    ensures ok { IfOk result (λ r. StandsFor space.new r (spell_values (columns.now ++ present.now ∷ next.now ∷ []))) }
    ensures grows { Grows space.old space.new }
    ensures levels { space.new.levels ≡ space.old.levels }
    ensures full { result ≡ Err MkFault.Full → length space.new.nodes ≡ space.new.limit }
{
    let to = next.valid(space)?;
    let from = present.valid(space)?;
    let states = and(space, from, to)?;
    let letters = all_values(space, columns)?;
    and(space, letters, states)
}

/// The steps of a machine as one set of bits: those that spell a value in each column, a present and a next state, and at
/// which some row leads from the one to the other by the letter. `columns` has a coding of one variable for each column, the
/// inputs first, and the levels of all codes are there. A state's value is its number. A row that says `-` or `*` for a state
/// is one conjunct less, not a row for each state.
///
/// Rows are disjoined by halves, so that of n rows each goes through log n disjunctions, and the time grows about as n. A row
/// takes about a step for each of its columns where their levels rise with their places, and more where they don't. The
/// codes and the rows aren't copied.
///
/// It answers `Full` where a new node was needed and the space was full, and `Memory` where there was none left. After either
/// each valid ref is valid still, and has its old value.
pub fn machine_part(
    space: &mut Space,
    columns: &[Coding],
    present: &Coding,
    next: &Coding,
    machine: &Machine,
) -> Result<Ref, MkFault>
    requires sound { IsSoundMachine (machine_of machine.now) }
    requires placed { IsMachineLaid space.old columns.now present.now next.now (machine_of machine.now) }
    ensures ok { IfOk result (λ r. StandsFor space.new r (machine_value columns.now present.now next.now (machine_of machine.now))) }
    ensures grows { Grows space.old space.new }
    ensures levels { space.new.levels ≡ space.old.levels }
    ensures full { result ≡ Err MkFault.Full → length space.new.nodes ≡ space.new.limit }
{
    let steps = rows_part(space, columns, present, next, &machine.rows)?;
    let values = values_part(space, columns, present, next)?;
    and(space, values, steps)
}
