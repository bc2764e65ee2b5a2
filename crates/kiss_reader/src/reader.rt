//! The machine of a text.

ghost use Rattle.std.specs.Prelude.{◌≡◌, ◌≤◌, ◌++◌, true, length, map, unwrap_or, IfOk};
ghost use Rattle.std.specs.Option.{option_map};
ghost use Rattle.lex_core.specs.LogicalLines.{logical_lines};
ghost use Rattle.name_table.specs.ScopeVars.{variables_of};
ghost use Rattle.name_table.specs.Variables as variables;
ghost use Rattle.name_table.specs.Variables.{names_of};
ghost use Rattle.net_model.specs.Faults.{Finds};
ghost use Rattle.net_model.specs.Machines as machines;
ghost use Rattle.net_model.specs.Machines.{IsSoundMachine, kiss_row_of, machine_of};
ghost use Rattle.net_model.specs.KissTexts.{kiss_text_in, reset_said, StandsForMachine};
ghost use Rattle.kiss_reader.specs.KissFaults.{kiss_fault};
ghost use Rattle.kiss_reader.specs.SecondPass.{rows_fault};
ghost use Rattle.kiss_reader.specs.Header.{header_said};
ghost use Rattle.kiss_reader.specs.Read.{IsRead, IsSmall, repeats_in, machine_read};

use crate::begin::line_without_directive;
use crate::columns::{are_different, columns_of};
use crate::first_pass::{Read, read_lines};
use crate::second_pass::read_rows;
use crate::states::state_in;
use name_table::{NameSet, Scope, ScopeVar};
use net_model::{KissRow, Machine, TextFault, TextKind};
use std::alloc::Global;

/// The machine that the bytes stand for. Else their first fault: of the first pass before the second one, in a pass that
/// of the first line, and on one line the kind that stands first in `docs/FORMATS.md`. Reading is meant to take time near
/// linear in the text, and memory for names and rows alone.
pub fn read_kiss(alloc: Global, bytes: &[u8]) -> Result<Machine, TextFault>
    ensures stands { IfOk result (λ machine. StandsForMachine bytes.now (machine_of machine)) }
    ensures only { IfOk result (λ machine. (other : machines.Machine) → StandsForMachine bytes.now other → machine_of machine ≡ other) }
    ensures sound { IfOk result (λ machine. IsSoundMachine (machine_of machine)) }
    ensures fault { Finds result (kiss_fault bytes.now) }
{
    if let Some(line) = line_without_directive(bytes) {
        return Err(TextFault::At {
            line,
            kind: TextKind::NoModel,
        });
    }
    match read_lines(alloc, bytes) {
        Ok(read) => machine_behind(alloc, bytes, &read),
        Err(fault) => Err(fault),
    }
}

// The machine of a text of which the first pass read this.
fn machine_behind(alloc: Global, bytes: &[u8], read: &Read<'_>) -> Result<Machine, TextFault>
    requires read { IsRead (kiss_text_in bytes.now) read.now }
    requires small { IsSmall read.now }
    ensures fault { Finds result (rows_fault (repeats_in read.now) read.now.states 0 (logical_lines bytes.now)) }
    ensures machine { IfOk result (λ machine. machine_of machine ≡ machine_read read.now (kiss_text_in bytes.now)) }
{
    let inputs = columns_of(
        alloc,
        &read.header.inputs,
        b'x',
        width_or_none(read.place.inputs),
    )?;
    let outputs = columns_of(
        alloc,
        &read.header.outputs,
        b'z',
        width_or_none(read.place.outputs),
    )?;
    let different = are_different(alloc, inputs.as_slice(), outputs.as_slice())?;
    match read_rows(alloc, bytes, &read.states, !different) {
        Ok(rows) => Ok(machine_with(inputs, outputs, read, rows)),
        Err(fault) => Err(fault),
    }
}

fn width_or_none(width: Option<u64>) -> u64
    ensures { result ≡ unwrap_or width 0 }
{
    width.unwrap_or(0)
}

fn machine_with(
    inputs: Vec<ScopeVar>,
    outputs: Vec<ScopeVar>,
    read: &Read<'_>,
    rows: Vec<KissRow>,
) -> Machine
    requires states { length read.now.states ≤ 65536 }
    requires inputs { length inputs.items ≤ 16384 }
    requires outputs { length outputs.items ≤ 16384 }
    requires different { variables.are_different (names_of (variables_of inputs.items) ++ names_of (variables_of outputs.items)) ≡ true }
    ensures { machine_of result ≡ record {
      inputs = variables_of inputs.items;
      outputs = variables_of outputs.items;
      states = length read.now.states;
      reset = reset_said read.now.states (header_said read.now.header).reset;
      rows = map kiss_row_of rows.items;
    } }
{
    Machine {
        inputs: Scope::of_vars(inputs),
        outputs: Scope::of_vars(outputs),
        states: read.states.len() as u32,
        reset: reset_state(&read.states, &read.header.reset),
        rows,
    }
}

// The number of the state in which the machine starts.
fn reset_state(states: &NameSet, reset: &Option<&[u8]>) -> u32
    requires { length states.now ≤ 65536 }
    ensures { result ≡ reset_said states.now (option_map (λ name. name.now) reset.now) }
{
    match reset {
        Some(name) => state_in(states, name),
        None => 0,
    }
}
