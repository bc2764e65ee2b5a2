//! Signals and values by their names.

ghost use Rattle.std.specs.Prelude.{◌≡◌, length, map, IfOk};
ghost use Rattle.name_table.specs.Variables.{place_of};
ghost use Rattle.net_model.specs.Spellings.{domain_at};
ghost use Rattle.net_model.specs.NetTexts.{place_in, places_in};
ghost use Rattle.blifmv_lines.specs.Said.{texts};

use name_table::{Names, VarId};
use std::alloc::{AllocError, Global};

// The signal of this name. A text has no other names than those of its table; the first stands for one that isn't there.
pub fn signal_of(names: &Names, name: &[u8]) -> VarId
    ensures { result.0 ≡ place_in names.now name.now }
{
    match names.find(name) {
        Some(var) => var,
        None => VarId(0),
    }
}

pub fn signals_of(alloc: Global, names: &Names, words: &[&[u8]]) -> Result<Vec<VarId>, AllocError>
    ensures { IfOk result (λ vars. map (λ v. v.0) vars.items ≡ places_in names.now (texts words.now)) }
{
    let mut vars = Vec::with_capacity(alloc, words.len())?;
    for word in words {
        vars.push(signal_of(names, word))?;
    }
    Ok(vars)
}

// The value of this name in the domain of a signal.
pub fn value_of(names: &Names, signal: VarId, name: &[u8]) -> Option<u32>
    ensures { result ≡ place_of (domain_at names.now signal.0) name.now }
{
    match names.domain(signal) {
        Some(domain) => domain.value_index(name),
        None => None,
    }
}

// How many values a signal has.
pub fn size_of(names: &Names, signal: VarId) -> u32
    ensures { result ≡ length (domain_at names.now signal.0) }
{
    match names.domain(signal) {
        Some(domain) => domain.len(),
        None => 0,
    }
}
