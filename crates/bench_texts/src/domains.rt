//! The layer of domains: the text of a network with many names that share one large domain is read.

ghost use Rattle.std.specs.Prelude.{◌≡◌, ◌+◌, ◌*◌, ◌≤◌, length, map, sum_by, vec_len, IfOk, IfSome};

use crate::fault::Fault;
use crate::texts::{push_names, read_network};
use name_table::{Names, VarId};
use std::alloc::{AllocError, Global};
use std::fmt;

/// How many values the shared domain has.
const VALUES: u64 = 65_536;

/// What was counted of the network.
#[derive(Drop)]
pub struct DomainCounts {
    pub names: u32,
    /// The values of each name, all together.
    pub values: u64,
}

impl fmt::Display for DomainCounts {
    fn fmt<W: fmt::Write>(&self, f: &mut fmt::Formatter<W>) -> fmt::Result {
        let names = self.names;
        let values = self.values;
        write!(f, "{names} names, {values} values together")
    }
}

/// Reads a text with so many names, which share one domain, and counts the names and the values of each.
pub fn count_domains(alloc: Global, size: u32) -> Result<DomainCounts, Fault>
    ensures names { IfOk result (λ counts. counts.names ≡ size) }
    ensures values { IfOk result (λ counts. counts.values ≡ VALUES * size) }
{
    let text = domains_text(alloc, size)?;
    let net = read_network(alloc, text.as_slice())?;
    let counts = DomainCounts {
        names: net.names.len(),
        values: values_of(&net.names).ok_or(Fault::Differs)?,
    };
    if counts.names != size || counts.values != VALUES * size as u64 {
        return Err(Fault::Differs);
    }
    Ok(counts)
}

// The text of a network with so many inputs, to which one line gives a domain.
fn domains_text(alloc: Global, size: u32) -> Result<Vec<u8>, AllocError>
    ensures { IfOk result (λ text. 2 * size ≤ vec_len text) }
{
    let mut text = Vec::new(alloc);
    text.extend_from_slice(b".model domains\n.mv ")?;
    push_names(alloc, &mut text, size, b',')?;
    text.extend_from_slice(b" 65536\n.inputs ")?;
    push_names(alloc, &mut text, size, b' ')?;
    text.extend_from_slice(b"\n.end\n")?;
    Ok(text)
}

/// How many values the names of a table have together, where it can be told.
pub(crate) fn values_of(names: &Names) -> Option<u64>
    ensures { IfSome result (λ count. count ≡ sum_by length (map (λ v. v.values) names.now)) }
{
    let mut count: u64 = 0;
    for number in 0..names.len() {
        let domain = names.domain(VarId(number))?;
        count += domain.len() as u64;
    }
    Some(count)
}
