//! The layer of named values: the text of a network is read that gives a signal many value names, and whose one table has
//! a value name in each row. The names are those of the layer of collisions, of which many collide.

ghost use Rattle.std.specs.Prelude.{◌≡◌, ◌<◌, ◌≤◌, min, vec_len, IfOk, OnOk};

use crate::collisions::{push_colliding, push_name};
use crate::fault::Fault;
use crate::texts::{push_number, read_network, up_to};
use name_table::VarId;
use std::alloc::{AllocError, Global};
use std::fmt;

/// The most values of a domain.
const MOST_VALUES: u32 = 65_536;

/// How many bytes each row takes, and each value name with the space before it.
const ROW_BYTES: usize = 97;

/// What was counted of the network.
#[derive(Drop)]
pub struct ValuedCounts {
    pub values: u32,
    pub rows: u64,
}

impl fmt::Display for ValuedCounts {
    fn fmt<W: fmt::Write>(&self, f: &mut fmt::Formatter<W>) -> fmt::Result {
        let values = self.values;
        let rows = self.rows;
        write!(f, "{values} values, {rows} rows")
    }
}

/// Reads a text with so many rows, which name as many values in turn, up to a bound. Counts both.
pub fn count_valued(alloc: Global, size: u32) -> Result<ValuedCounts, Fault>
    ensures values { IfOk result (λ counts. counts.values ≡ min size MOST_VALUES) }
    ensures rows { IfOk result (λ counts. counts.rows ≡ size) }
{
    let wanted = up_to(size, MOST_VALUES);
    let text = valued_text(alloc, wanted, size)?;
    let net = read_network(alloc, text.as_slice())?;
    let [table] = net.tables.as_slice() else {
        return Err(Fault::Differs);
    };
    let domain = net.names.domain(VarId(0)).ok_or(Fault::Differs)?;
    let counts = ValuedCounts {
        values: domain.len(),
        rows: table.rows.len() as u64,
    };
    if counts.values != wanted || counts.rows != size as u64 {
        return Err(Fault::Differs);
    }
    Ok(counts)
}

// The text of a network with one signal, which a line gives so many values, and a table of so many rows.
fn valued_text(alloc: Global, values: u32, rows: u32) -> Result<Vec<u8>, AllocError>
    requires { values ≤ MOST_VALUES }
    ensures { IfOk result (λ text. values ≤ vec_len text) }
{
    let mut text = Vec::with_capacity(alloc, ROW_BYTES * rows as usize)?;
    text.extend_from_slice(b".model valued\n.mv a ")?;
    push_number(alloc, &mut text, values)?;
    push_colliding(&mut text, values)?;
    text.extend_from_slice(b"\n.outputs a\n.table a\n")?;
    push_rows(&mut text, values, rows)?;
    text.extend_from_slice(b".end\n")?;
    Ok(text)
}

// Puts so many rows at the end of a text, of which each names the value behind that of the row before.
fn push_rows(text: &mut Vec<u8>, values: u32, rows: u32) -> Result<(), AllocError>
    requires { values ≤ MOST_VALUES }
    ensures { OnOk result (vec_len text.old ≤ vec_len text.new) }
{
    let most = values.max(1);
    for row in 0..rows {
        push_name(text, row % most)?;
        text.push(b'\n')?;
    }
    Ok(())
}
