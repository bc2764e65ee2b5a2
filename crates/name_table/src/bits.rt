//! How many bits code the values of a domain.

ghost use Rattle.std.specs.Prelude.{◌≡◌, ◌≤◌, ◌<◌, ◌^◌, ℕ};
ghost use Rattle.name_table.specs.CodeBits as codes;

/// How many bits code this many values.
pub fn code_bits(values: usize) -> u32
    requires { values < 2 ^ 32 }
    ensures bits { result ≡ codes.code_bits values }
    ensures enough { values ≤ 2 ^ result }
    ensures least { (bits : ℕ) → values ≤ 2 ^ bits → result ≤ bits }
    ensures few { result ≤ 32 }
{
    for bits in 0..32u32 {
        if values <= 1usize << bits {
            return bits;
        }
    }
    32
}
