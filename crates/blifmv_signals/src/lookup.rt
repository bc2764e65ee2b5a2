//! Signals by their names.

ghost use Rattle.std.specs.Prelude.{◌≡◌, ◌≤◌, length};
ghost use Rattle.net_model.specs.NetTexts.{place_in};

use name_table::{Names, VarId};

// The signal of this name. A text has no other names than those of its table; the first stands for one that isn't there.
pub fn signal_of(names: &Names, name: &[u8]) -> VarId
    ensures place { result.0 ≡ place_in names.now name.now }
    ensures within { result.0 ≤ length names.now }
{
    match names.find(name) {
        Some(var) => var,
        None => VarId(0),
    }
}
