//! Words over two variables.

ghost use Rattle.std.specs.Prelude.{◌≡◌, ◌<◌, length, IfOk};
ghost use Rattle.name_table.specs.ScopeVars.{variable_at};
ghost use Rattle.net_model.specs.Words.{IsLetter, IsWord};
ghost use Rattle.det_core.specs.Languages.{word_of};

use name_table::Scope;
use net_model::{Letter, Word};
use std::alloc::Global;
use std::test::Fail;

// How many values the variable at a place has.
fn values_at(scope: &Scope, var: u32) -> u32
    requires { var < length scope.now }
    ensures { result ≡ length (variable_at scope.now var).values }
{
    scope.domain(var).unwrap().len()
}

fn letter_of(alloc: Global, scope: &Scope, first: u32, second: u32) -> Result<Letter, Fail>
    ensures { IfOk result (λ letter. IsLetter scope.now letter.values.items) }
{
    if scope.len() != 2 || first >= values_at(scope, 0) || second >= values_at(scope, 1) {
        return Err(Fail::new("no letter"));
    }
    let values = vec![in alloc; first, second]?;
    Ok(Letter { values })
}

/// The word of two letters, each of two values.
pub(crate) fn word_of_two(
    alloc: Global,
    scope: &Scope,
    first: (u32, u32),
    second: (u32, u32),
) -> Result<Word, Fail>
    ensures { IfOk result (λ word. IsWord scope.now (word_of word.letters.items)) }
{
    let first = letter_of(alloc, scope, first.0, first.1)?;
    let second = letter_of(alloc, scope, second.0, second.1)?;
    let letters = vec![in alloc; first, second]?;
    Ok(Word { letters })
}
