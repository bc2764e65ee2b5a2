//! Different names, counted up to a limit.

ghost use Rattle.std.specs.Prelude.{◌≡◌, ◌≤◌, length, IfOk, OnOk};
ghost use Rattle.name_table.specs.Variables.{with_name};
ghost use Rattle.net_model.specs.NetTexts.{distinct};
ghost use Rattle.blifmv_lines.specs.Said.{texts};
ghost use Rattle.kiss_reader.specs.Above.{AreFew};

use name_table::NameSet;
use std::alloc::{AllocError, Global};

/// Puts the names behind those that are there, each once, and says whether there are at most so many. It stops where there
/// are more.
pub(crate) fn put_all(
    alloc: Global,
    set: &mut NameSet,
    names: &[&[u8]],
    most: usize,
) -> Result<bool, AllocError>
    requires { length set.old ≤ most }
    ensures { IfOk result (λ few. AreFew most (distinct set.old (texts names.now)) set.new few) }
{
    let mut left = names;
    while let [name, more @ ..] = left {
        put(alloc, set, name)?;
        if set.len() > most {
            return Ok(false);
        }
        left = more;
    }
    Ok(true)
}

/// Puts the name behind all others, unless it is there.
pub(crate) fn put(alloc: Global, set: &mut NameSet, name: &[u8]) -> Result<(), AllocError>
    ensures { OnOk result (set.new ≡ with_name set.old name.now) }
{
    if set.find(name).is_some() {
        return Ok(());
    }
    set.add(name.to_vec(alloc)?)?;
    Ok(())
}
