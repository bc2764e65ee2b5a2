//! A coding of letters on the levels of a space.

ghost use Rattle.std.specs.Prelude.{◌≡◌, ◌==◌, ◌+◌, ◌<◌, ◌≤◌, ◌↔◌, ◌∷◌, [], ℕ, length, Err, IfOk, IfErr, IfSome, IfNone, OnOk, false};
ghost use Rattle.name_table.specs.ScopeVars.{variable_at};
ghost use Rattle.net_model.specs.Words.{IsLetter};
ghost use Rattle.node_table.specs.Table.{Bits, Grows};
ghost use Rattle.bdd_ops.specs.Meaning.{StandsFor, IsMissing};
ghost use Rattle.bdd_ops.specs.Words.{bit_of};
ghost use Rattle.mv_encoding.specs.Fields.{field_at, FitsIn};
ghost use Rattle.name_table.specs.CodeBits.{bits_of, bits_in};
ghost use Rattle.mv_encoding.specs.Layouts.{bits_before, number_at, numbers_at, number_of, numbers_of, levels_of, is_letter, IsLaid, IsRefused};
ghost use Rattle.mv_encoding.specs.Sets.{StandsForSet, layout_of, HasCode};

use crate::codes::{codes_below, number_codes};
use crate::fault::CodeFault;
use crate::field::Field;
use crate::numbers::{number_in, put_number};
use crate::planning::{bits_of_letter, fields_of, levels_from};
use bdd_ops::{Code, LevelSet};
use name_table::Scope;
use net_model::Letter;
use node_table::{MkFault, Ref, Space};
use std::alloc::Global;
use std::marker::Model;

// The most bits of a letter.
const MOST_BITS: u32 = 2_000;

/// The letters over a scope, each with a code of at most 2,000 bits on consecutive levels: the variables in their order, and
/// of each the most significant bit first. A variable of n values has the least number b of bits with 2^b >= n.
#[derive(Drop)]
pub struct Coding {
    scope: Scope,
    first: u32,
    levels: LevelSet,
    fields: Vec<Field>,
}

impl Model for Coding {
    ghost use Rattle.mv_encoding.specs.Layouts.{Layout};
    ghost use Rattle.mv_encoding.specs.Fields.{IsCoding};

    ghost Value = { Layout };

    ghost view = { λ c. record { scope = c.scope; first = c.first } };

    ghost invariant = { λ c. IsCoding c.scope c.first c.levels c.fields.items };
}

impl Coding {
    /// The coding of the letters over this scope on the levels from `first` on, which need not exist yet. It is refused
    /// exactly where a letter has more than 2,000 bits.
    pub fn plan(alloc: Global, scope: &Scope, first: u32) -> Result<Coding, CodeFault>
        requires { first ≤ 8192 }
        ensures ok { IfOk result (λ coding. coding ≡ record { scope = scope.now; first = first }) }
        ensures few { OnOk result (bits_in scope.now ≤ 2000) }
        ensures refused { IfErr result (IsRefused (bits_in scope.now)) }
    {
        let bits = bits_of_letter(scope);
        if bits > MOST_BITS {
            return Err(CodeFault::Bits(u64::from(bits)));
        }
        let fields = fields_of(alloc, scope)?;
        let levels = levels_from(alloc, first, bits)?;
        let scope = scope.clone()?;
        Ok(Coding {
            scope,
            first,
            levels,
            fields,
        })
    }

    /// How many bits a letter has.
    pub fn bits(&self) -> u32
        ensures bits { result ≡ bits_in self.now.scope }
        ensures few { result ≤ 2000 }
    {
        self.levels.len()
    }

    /// The first level of a letter.
    pub fn first(&self) -> u32
        ensures { result ≡ self.now.first }
    {
        self.first
    }

    /// The levels of a letter, in the order of its bits.
    pub fn levels(&self) -> &LevelSet
        ensures { result.now ≡ levels_of self.now }
    {
        &self.levels
    }

    /// The variables of a letter.
    pub fn scope(&self) -> &Scope
        ensures { result.now ≡ self.now.scope }
    {
        &self.scope
    }

    /// The set of bits at which a variable has this value: 1 exactly at the value's code.
    pub fn cube(&self, space: &mut Space, var: u32, value: u32) -> Result<Ref, MkFault>
        requires var { var < length self.now.scope }
        requires value { value < length (variable_at self.now.scope var).values }
        requires levels { IsLaid self.now space.old }
        ensures ok { IfOk result (λ r. StandsFor space.new r (λ bits. number_of self.now var bits == value)) }
        ensures grows { Grows space.old space.new }
        ensures levels { space.new.levels ≡ space.old.levels }
        ensures letters { IfOk result (λ r. StandsForSet space.new (layout_of self.now var) r (λ letter. letter ≡ value ∷ [])) }
        ensures full { result ≡ Err MkFault.Full → length space.new.nodes ≡ space.new.limit }
        ensures needed { result ≡ Err MkFault.Full → IsMissing space.new (λ bits. number_of self.now var bits == value) }
    {
        let field = self.field(var);
        if field.bits == 0 {
            return Ok(space.one());
        }
        number_codes(space, self.first + field.before, field.bits, value)
    }

    /// The set of all letters: 1 exactly where each variable's code stands for a value.
    pub fn valid(&self, space: &mut Space) -> Result<Ref, MkFault>
        requires { IsLaid self.now space.old }
        ensures ok { IfOk result (λ r. StandsFor space.new r (λ bits. is_letter self.now.scope (numbers_of self.now bits))) }
        ensures grows { Grows space.old space.new }
        ensures levels { space.new.levels ≡ space.old.levels }
        ensures letters { IfOk result (λ r. StandsForSet space.new self.now r (λ letter. Unit {0})) }
        ensures full { result ≡ Err MkFault.Full → length space.new.nodes ≡ space.new.limit }
        ensures needed { result ≡ Err MkFault.Full → IsMissing space.new (λ bits. is_letter self.now.scope (numbers_of self.now bits)) }
    {
        if self.levels.len() == 0 {
            return Ok(space.one());
        }
        self.codes_of_letters(space)
    }

    // The set of all letters, where all their levels are there.
    fn codes_of_letters(&self, space: &mut Space) -> Result<Ref, MkFault>
        requires { self.now.first + bits_in self.now.scope ≤ space.old.levels }
        ensures ok { IfOk result (λ r. StandsFor space.new r (λ bits. is_letter self.now.scope (numbers_of self.now bits))) }
        ensures grows { Grows space.old space.new }
        ensures levels { space.new.levels ≡ space.old.levels }
        ensures full { result ≡ Err MkFault.Full → length space.new.nodes ≡ space.new.limit }
        ensures needed { result ≡ Err MkFault.Full → IsMissing space.new (λ bits. is_letter self.now.scope (numbers_of self.now bits)) }
    {
        let mut codes = space.one();
        for var in (0..self.scope.len()).rev() {
            let field = self.field(var);
            codes = codes_below(
                space,
                self.first + field.before,
                field.bits,
                field.values,
                codes,
            )?;
        }
        Ok(codes)
    }

    /// The code of a letter: bit k belongs to the level at place k of `levels`, and the bits from `bits` on are 0.
    pub fn code_of(&self, letter: &Letter) -> Code
        requires { IsLetter self.now.scope letter.now.values.items }
        ensures numbers { numbers_at self.now.scope 0 (bit_of result) ≡ letter.now.values.items }
        ensures rest { (k : ℕ) → bits_in self.now.scope ≤ k → bit_of result k ≡ false }
        ensures laid { (bits : Bits) → HasCode self.now (bit_of result) bits ↔ (numbers_of self.now bits ≡ letter.now.values.items) }
    {
        let mut code = Code::zero();
        for var in 0..self.scope.len() {
            let field = self.field(var);
            let value = letter.values[var as usize];
            put_number(&mut code, field.before, field.bits, value);
        }
        code
    }

    /// The value of a variable in a code, and none at a code past the end of its domain.
    pub fn value_of(&self, var: u32, code: &Code) -> Option<u32>
        requires { var < length self.now.scope }
        ensures some { IfSome result (λ value. (value ≡ number_at (bits_before self.now.scope var) (bits_of (variable_at self.now.scope var)) (bit_of code.now)) × (value < length (variable_at self.now.scope var).values)) }
        ensures none { IfNone result (length (variable_at self.now.scope var).values ≤ number_at (bits_before self.now.scope var) (bits_of (variable_at self.now.scope var)) (bit_of code.now)) }
    {
        let field = self.field(var);
        let number = number_in(code, field.before, field.bits);
        if number < field.values {
            Some(number)
        } else {
            None
        }
    }

    // Where the code of a variable stands.
    fn field(&self, var: u32) -> Field
        requires { var < length self.now.scope }
        ensures is { result ≡ field_at self.now.scope var }
        ensures fits { FitsIn (bits_in self.now.scope) result }
        ensures few { bits_in self.now.scope ≤ 2000 }
        ensures low { self.now.first ≤ 8192 }
    {
        self.fields[var as usize]
    }
}
