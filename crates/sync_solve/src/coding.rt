//! An automaton as a relation on levels of its own.

ghost use Rattle.std.specs.Prelude.{◌≡◌, ◌==◌, ◌+◌, ◌*◌, ◌^◌, ◌≤◌, ◌<◌, ◌++◌, All, length, Err, IfOk, IfErr};
ghost use Rattle.std.specs.List.{range_with_len};
ghost use Rattle.node_table.specs.Table.{Grows};
ghost use Rattle.bdd_ops.specs.Meaning.{StandsFor};
ghost use Rattle.det_core.specs.Automata.{state_at, AreGuardsValid};
ghost use Rattle.det_core.specs.Codes.{code_number};
ghost use Rattle.det_core.specs.Faults.{IsLimit};
ghost use Rattle.sync_solve.specs.Codes.{code_back, AreCoded};

use crate::machine::Machine;
use bdd_ops::{LevelMap, LevelSet};
use det_core::{Det, SolveFault, accepting_codes, code, encode};
use node_table::{MkFault, Ref, Space};
use std::alloc::{AllocError, Global};

/// The automaton on these levels: the digits of the state's number stand on consecutive levels from `first` on, those of the
/// next state's right behind.
pub(crate) fn coded(
    space: &mut Space,
    det: &Det,
    first: u32,
    digits: u32,
) -> Result<Machine, SolveFault>
    requires levels { first + 2 * digits ≤ space.old.levels }
    requires few { first + 2 * digits ≤ 8192 }
    requires enough { length det.now ≤ 2 ^ digits }
    requires guards { All (λ s. AreGuardsValid space.old s.moves) det.now }
    ensures ok { IfOk result (λ m. AreCoded space.old space.new det.now first digits m.parts m.init m.acc) }
    ensures grows { Grows space.old space.new }
    ensures levels { space.new.levels ≡ space.old.levels }
    ensures limit { IfErr result (IsLimit space.new (λ states. states ≡ length det.now)) }
{
    let present = levels_from(space.allocator(), first, digits)?;
    let next = levels_from(space.allocator(), first + digits, digits)?;
    let parts = encode(space, det, &present, &next)?;
    match ends(space, det, &present) {
        Ok((init, acc)) => Ok(Machine { parts, init, acc }),
        Err(fault) => Err(SolveFault::stopped(space, fault, det.states())),
    }
}

// The codes of state 0 and of the accepting states.
fn ends(space: &mut Space, det: &Det, present: &LevelSet) -> Result<(Ref, Ref), MkFault>
    requires { All (λ level. level < space.old.levels) present.now }
    ensures init { IfOk result (λ ends. StandsFor space.new ends.0 (λ bits. code_number present.now bits == 0)) }
    ensures acc { IfOk result (λ ends. StandsFor space.new ends.1 (λ bits. (state_at det.now (code_number present.now bits)).accepting)) }
    ensures grows { Grows space.old space.new }
    ensures levels { space.new.levels ≡ space.old.levels }
    ensures full { result ≡ Err MkFault.Full → length space.new.nodes ≡ space.new.limit }
{
    let init = code(space, present, 0)?;
    let acc = accepting_codes(space, det, present)?;
    Ok((init, acc))
}

// So many consecutive levels.
fn levels_from(alloc: Global, first: u32, count: u32) -> Result<LevelSet, AllocError>
    requires { first + count ≤ 8192 }
    ensures { IfOk result (λ levels. levels ≡ range_with_len first count) }
{
    let mut levels = Vec::new(alloc);
    for level in first..first + count {
        levels.push(level)?;
    }
    LevelSet::of(alloc, &levels)
}

/// The map of a file's states, and behind it that of the automaton's.
pub(crate) fn with_codes(
    alloc: Global,
    back: &LevelMap,
    first: u32,
    digits: u32,
) -> Result<LevelMap, AllocError>
    requires { first + 2 * digits ≤ 8192 }
    ensures { IfOk result (λ map. map ≡ back.now ++ code_back first digits) }
{
    let mut pairs = Vec::new(alloc);
    for k in 0..back.len() {
        let Some(pair) = back.at(k) else {
            unreachable!();
        };
        pairs.push(pair)?;
    }
    for k in 0..digits {
        pairs.push((first + digits + k, first + k))?;
    }
    if pairs.len() > u32::MAX as usize {
        return Err(AllocError);
    }
    LevelMap::of(alloc, &pairs)
}
