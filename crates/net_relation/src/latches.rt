//! The parts of latches.

ghost use Rattle.std.specs.Prelude.{◌≡◌, ◌==◌, ◌<◌, ◌&&◌, ◌∷◌, ◌++◌, ℕ, Bool, List, [], length, map, Err, IfOk, IfErr, OnOk};
ghost use Rattle.node_table.specs.Table.{Bits, Grows};
ghost use Rattle.bdd_ops.specs.Meaning.{StandsFor};
ghost use Rattle.mv_encoding.specs.Layouts.{number_of, numbers_of, is_letter};
ghost use Rattle.mv_encoding.specs.Spots.{spot_at};
ghost use Rattle.net_model.specs.Nets.{latch_of};
ghost use Rattle.det_core.specs.Faults.{IsLimit};
ghost use Rattle.net_relation.specs.Relations.{AreFor, has_value_of, latch_value, latch_values, present_values, CanAgree, AreLatchesAt, ArePresentAt};

use crate::adding::add;
use bdd_ops::and;
use det_core::SolveFault;
use mv_encoding::{Coding, same_number};
use net_model::Latch;
use node_table::{MkFault, Ref, Space};
use part_relation::Parts;

/// The bits at which `spot` spells the value of a signal.
fn value_part(space: &mut Space, spot: &Coding, signal: &Coding) -> Result<Ref, MkFault>
    requires { CanAgree space.old spot.now signal.now }
    ensures ok { IfOk result (λ r. StandsFor space.new r (λ bits. is_letter signal.now.scope (numbers_of signal.now bits) && (number_of spot.now 0 bits == number_of signal.now 0 bits))) }
    ensures grows { Grows space.old space.new }
    ensures levels { space.new.levels ≡ space.old.levels }
    ensures full { result ≡ Err MkFault.Full → length space.new.nodes ≡ space.new.limit }
{
    let value = signal.valid(space)?;
    let alike = same_number(space, spot, signal)?;
    and(space, value, alike)
}

/// The bits at which the present value of a latch is that of its output, and its next value that of its input.
fn latch_part(
    space: &mut Space,
    present: &Coding,
    output: &Coding,
    next: &Coding,
    input: &Coding,
) -> Result<Ref, MkFault>
    requires present { CanAgree space.old present.now output.now }
    requires next { CanAgree space.old next.now input.now }
    ensures ok { IfOk result (λ r. StandsFor space.new r (λ bits. (is_letter output.now.scope (numbers_of output.now bits) && (number_of present.now 0 bits == number_of output.now 0 bits)) && (is_letter input.now.scope (numbers_of input.now bits) && (number_of next.now 0 bits == number_of input.now 0 bits)))) }
    ensures grows { Grows space.old space.new }
    ensures levels { space.new.levels ≡ space.old.levels }
    ensures full { result ≡ Err MkFault.Full → length space.new.nodes ≡ space.new.limit }
{
    let now = value_part(space, present, output)?;
    let then = value_part(space, next, input)?;
    and(space, now, then)
}

/// Adds the part of a latch.
fn add_latch(
    space: &mut Space,
    parts: &mut Parts,
    signals: &[Coding],
    latch: &Latch,
    present: &Coding,
    next: &Coding,
) -> Result<(), SolveFault>
    requires input { latch.now.input.0 < length signals.now }
    requires output { latch.now.output.0 < length signals.now }
    requires present { CanAgree space.old present.now (spot_at signals.now latch.now.output.0) }
    requires next { CanAgree space.old next.now (spot_at signals.now latch.now.input.0) }
    ensures ok { OnOk result ((before : List (Bits → Bool)) → AreFor space.old parts.old before → AreFor space.new parts.new (before ++ latch_value signals.now (latch_of latch.now) present.now next.now ∷ [])) }
    ensures grows { Grows space.old space.new }
    ensures levels { space.new.levels ≡ space.old.levels }
    ensures limit { IfErr result (IsLimit space.new (λ states. states ≡ 0)) }
{
    let output = &signals[latch.output.0 as usize];
    let input = &signals[latch.input.0 as usize];
    let part = latch_part(space, present, output, next, input);
    add(space, parts, part)
}

/// Adds the part of a latch's present value.
fn add_present_of(
    space: &mut Space,
    parts: &mut Parts,
    signals: &[Coding],
    latch: &Latch,
    present: &Coding,
) -> Result<(), SolveFault>
    requires output { latch.now.output.0 < length signals.now }
    requires present { CanAgree space.old present.now (spot_at signals.now latch.now.output.0) }
    ensures ok { OnOk result ((before : List (Bits → Bool)) → AreFor space.old parts.old before → AreFor space.new parts.new (before ++ has_value_of signals.now present.now latch.now.output.0 ∷ [])) }
    ensures grows { Grows space.old space.new }
    ensures levels { space.new.levels ≡ space.old.levels }
    ensures limit { IfErr result (IsLimit space.new (λ states. states ≡ 0)) }
{
    let output = &signals[latch.output.0 as usize];
    let part = value_part(space, present, output);
    add(space, parts, part)
}

/// Adds a part for each latch, in their order.
pub(crate) fn add_latches(
    space: &mut Space,
    parts: &mut Parts,
    signals: &[Coding],
    latches: &[Latch],
    present: &[Coding],
    next: &[Coding],
) -> Result<(), SolveFault>
    requires { AreLatchesAt space.old signals.now (map latch_of latches.now) present.now next.now }
    ensures ok { OnOk result ((before : List (Bits → Bool)) → AreFor space.old parts.old before → AreFor space.new parts.new (before ++ latch_values signals.now (map latch_of latches.now) present.now next.now)) }
    ensures grows { Grows space.old space.new }
    ensures levels { space.new.levels ≡ space.old.levels }
    ensures limit { IfErr result (IsLimit space.new (λ states. states ≡ 0)) }
{
    let _levels = space.levels();
    for place in 0..latches.len() {
        add_latch(
            space,
            parts,
            signals,
            &latches[place],
            &present[place],
            &next[place],
        )?;
    }
    Ok(())
}

/// Adds a part for the present value of each latch, in their order.
pub(crate) fn add_present(
    space: &mut Space,
    parts: &mut Parts,
    signals: &[Coding],
    latches: &[Latch],
    present: &[Coding],
) -> Result<(), SolveFault>
    requires { ArePresentAt space.old signals.now (map latch_of latches.now) present.now }
    ensures ok { OnOk result ((before : List (Bits → Bool)) → AreFor space.old parts.old before → AreFor space.new parts.new (before ++ present_values signals.now (map latch_of latches.now) present.now)) }
    ensures grows { Grows space.old space.new }
    ensures levels { space.new.levels ≡ space.old.levels }
    ensures limit { IfErr result (IsLimit space.new (λ states. states ≡ 0)) }
{
    let _levels = space.levels();
    for place in 0..latches.len() {
        add_present_of(space, parts, signals, &latches[place], &present[place])?;
    }
    Ok(())
}
