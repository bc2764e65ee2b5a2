//! Sets of signals that are told by their names.

ghost use Rattle.std.specs.Prelude.{◌≡◌, ◌<◌, false, not, length};
ghost use Rattle.std.specs.List.{list_any};
ghost use Rattle.net_model.specs.NetTexts.{places_in};
ghost use Rattle.blifmv_lines.specs.Said.{texts};
ghost use Rattle.net_conditions.specs.Marks.{is_marked};
ghost use Rattle.blifmv_signals.specs.Marked.{all_marked, marks_twice};

use crate::lookup::signal_of;
use name_table::Names;
use net_conditions::Signals;

// Whether the set has the signal of one of these names.
pub(crate) fn has_one(names: &Names, set: &Signals, words: &[&[u8]]) -> bool
    ensures { result ≡ list_any (is_marked set.now) (places_in names.now (texts words.now)) }
{
    let mut left = words;
    while let [name, more @ ..] = left {
        if set.has(signal_of(names, name)) {
            return true;
        }
        left = more;
    }
    false
}

// Whether the set lacks the signal of one of these names.
pub(crate) fn lacks_one(names: &Names, set: &Signals, words: &[&[u8]]) -> bool
    ensures { result ≡ list_any (λ signal. not (is_marked set.now signal)) (places_in names.now (texts words.now)) }
{
    let mut left = words;
    while let [name, more @ ..] = left {
        if !set.has(signal_of(names, name)) {
            return true;
        }
        left = more;
    }
    false
}

// Adds the signals of these names, and says whether the set had one of them already. It stops where it did.
pub(crate) fn adds_twice(names: &Names, set: &mut Signals, words: &[&[u8]]) -> bool
    requires { length names.now < length set.old }
    ensures twice { result ≡ marks_twice set.old (places_in names.now (texts words.now)) }
    ensures added { result ≡ false → set.new ≡ all_marked set.old (places_in names.now (texts words.now)) }
{
    let mut left = words;
    while let [name, more @ ..] = left {
        if !set.insert(signal_of(names, name)) {
            return true;
        }
        left = more;
    }
    false
}
