//! Variables whose codes stand apart: whether they spell values, and whether two of them spell one number.

ghost use Rattle.std.specs.Prelude.{◌≡◌, ◌==◌, ◌<◌, ◌≤◌, ◌+◌, not, if◌then◌else◌, length, Err, IfOk};
ghost use Rattle.node_table.specs.Table.{Grows};
ghost use Rattle.bdd_ops.specs.Meaning.{StandsFor};
ghost use Rattle.name_table.specs.CodeBits.{bits_in};
ghost use Rattle.mv_encoding.specs.Layouts.{number_at, number_of, IsLaid};
ghost use Rattle.mv_encoding.specs.Spots.{IsSpot, AreSpots, AreLaid, AreValuesShort, spell_values};

use crate::coding::Coding;
use bdd_ops::{and, ite, not};
use node_table::{MkFault, Ref, Space};

/// The bits that spell a value at each of these spots. It conjoins one variable after the other, the last one first, so spots
/// that go from the topmost level down cost least.
pub fn all_values(space: &mut Space, spots: &[Coding]) -> Result<Ref, MkFault>
    requires { AreLaid space.old spots.now }
    ensures ok { IfOk result (λ r. StandsFor space.new r (spell_values spots.now)) }
    ensures grows { Grows space.old space.new }
    ensures levels { space.new.levels ≡ space.old.levels }
    ensures full { result ≡ Err MkFault.Full → length space.new.nodes ≡ space.new.limit }
    ensures needed { result ≡ Err MkFault.Full → AreValuesShort space.new spots.now }
{
    let mut values = space.one();
    for place in (0..spots.len()).rev() {
        let value = spots[place].valid(space)?;
        values = and(space, value, values)?;
    }
    Ok(values)
}

/// The bits that spell the same number at both of these spots, of which each has as many bits.
pub fn same_number(space: &mut Space, a: &Coding, b: &Coding) -> Result<Ref, MkFault>
    requires spots { IsSpot a.now × IsSpot b.now }
    requires bits { bits_in a.now.scope ≡ bits_in b.now.scope }
    requires laid { IsLaid a.now space.old × IsLaid b.now space.old }
    ensures ok { IfOk result (λ r. StandsFor space.new r (λ bits. number_of a.now 0 bits == number_of b.now 0 bits)) }
    ensures grows { Grows space.old space.new }
    ensures levels { space.new.levels ≡ space.old.levels }
    ensures full { result ≡ Err MkFault.Full → length space.new.nodes ≡ space.new.limit }
{
    if a.bits() == 0 {
        return Ok(space.one());
    }
    same_bits(space, a.first(), b.first(), a.bits())
}

// The same, by the first level of each code and how many bits they have.
fn same_bits(space: &mut Space, a: u32, b: u32, bits: u32) -> Result<Ref, MkFault>
    requires a { a + bits ≤ space.old.levels }
    requires b { b + bits ≤ space.old.levels }
    ensures ok { IfOk result (λ r. StandsFor space.new r (λ u. number_at a bits u == number_at b bits u)) }
    ensures grows { Grows space.old space.new }
    ensures levels { space.new.levels ≡ space.old.levels }
    ensures full { result ≡ Err MkFault.Full → length space.new.nodes ≡ space.new.limit }
{
    let one = space.one();
    if bits == 0 {
        return Ok(one);
    }
    let behind = same_bits(space, a + 1, b + 1, bits - 1)?;
    let here = same_bit(space, a, b)?;
    and(space, here, behind)
}

// The bits that are the same at these two levels.
fn same_bit(space: &mut Space, a: u32, b: u32) -> Result<Ref, MkFault>
    requires a { a < space.old.levels }
    requires b { b < space.old.levels }
    ensures ok { IfOk result (λ r. StandsFor space.new r (λ u. if u a then u b else not (u b))) }
    ensures grows { Grows space.old space.new }
    ensures levels { space.new.levels ≡ space.old.levels }
    ensures full { result ≡ Err MkFault.Full → length space.new.nodes ≡ space.new.limit }
{
    let first = literal(space, a)?;
    let second = literal(space, b)?;
    let other = not(space, second)?;
    ite(space, first, second, other)
}

// The bits that are 1 at this level.
fn literal(space: &mut Space, level: u32) -> Result<Ref, MkFault>
    requires { level < space.old.levels }
    ensures ok { IfOk result (λ r. StandsFor space.new r (λ u. u level)) }
    ensures grows { Grows space.old space.new }
    ensures levels { space.new.levels ≡ space.old.levels }
    ensures full { result ≡ Err MkFault.Full → length space.new.nodes ≡ space.new.limit }
{
    let zero = space.zero();
    let one = space.one();
    space.mk(level, zero, one)
}
