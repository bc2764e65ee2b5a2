//! The layer of rows: the text of a network with one table of many rows is read.

ghost use Rattle.std.specs.Prelude.{◌≡◌, IfOk};

use crate::fault::Fault;
use crate::lines::rows_text;
use crate::texts::read_network;
use std::alloc::Global;
use std::fmt;

/// How many names the text has.
const NAMES: u32 = 5;

/// What was counted of the network.
#[derive(Drop)]
pub struct RowCounts {
    pub rows: u64,
    pub names: u32,
}

impl fmt::Display for RowCounts {
    fn fmt<W: fmt::Write>(&self, f: &mut fmt::Formatter<W>) -> fmt::Result {
        let rows = self.rows;
        let names = self.names;
        write!(f, "{rows} rows, {names} names")
    }
}

/// Reads a text with so many rows, and counts the rows of its table and its names.
pub fn count_rows(alloc: Global, size: u32) -> Result<RowCounts, Fault>
    ensures rows { IfOk result (λ counts. counts.rows ≡ size) }
    ensures names { IfOk result (λ counts. counts.names ≡ NAMES) }
{
    let text = rows_text(alloc, size)?;
    let net = read_network(alloc, text.as_slice())?;
    let [table] = net.tables.as_slice() else {
        return Err(Fault::Differs);
    };
    let counts = RowCounts {
        rows: table.rows.len() as u64,
        names: net.names.len(),
    };
    if counts.rows != size as u64 || counts.names != NAMES {
        return Err(Fault::Differs);
    }
    Ok(counts)
}
