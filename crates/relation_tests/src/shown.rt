//! Diagrams as the patterns of their paths: of each level of the space `0`, `1`, or `-` where the path doesn't ask it.

ghost use Rattle.std.specs.Prelude.{◌<◌, All, IsTrue};
ghost use Rattle.node_table.specs.Table.{IsValid};

use bdd_ops::LevelSet;
use bdd_walk::{Lit, Paths};
use node_table::{Ref, Space};

// Whether the path asks just the levels of the pattern, for these bits.
fn is_path(path: &[Lit], pattern: &str) -> bool {
    let mut left = path;
    for (level, sign) in pattern.bytes().enumerate() {
        if sign != b'-' {
            let Some((lit, more)) = left.split_first() else {
                return false;
            };
            if !is_lit(lit, level, sign == b'1') {
                return false;
            }
            left = more;
        }
    }
    left.is_empty()
}

fn is_lit(lit: &Lit, level: usize, value: bool) -> bool {
    lit.level as usize == level && lit.value == value
}

fn are_paths(paths: Paths, patterns: &str) -> bool {
    let mut paths = paths;
    for pattern in patterns.split_whitespace() {
        match paths.next_path() {
            Some(path) => {
                if !is_path(path, pattern) {
                    return false;
                }
            }
            None => return false,
        }
    }
    paths.next_path().is_none()
}

/// Whether the diagram has just the paths of these patterns, in this order.
pub(crate) fn has_paths(space: &Space, r: Ref, patterns: &str) -> bool
    requires { IsValid space.now r }
{
    match Paths::over(space.allocator(), space, r) {
        Ok(paths) => are_paths(paths, patterns),
        Err(_) => false,
    }
}

/// Whether all of these are levels of the space.
pub(crate) fn are_levels(space: &Space, levels: &LevelSet) -> bool
    ensures { IsTrue result → All (λ level. level < space.now.levels) levels.now }
{
    let count = space.levels();
    for place in 0..levels.len() {
        match levels.at(place) {
            Some(level) => {
                if level >= count {
                    return false;
                }
            }
            None => return false,
        }
    }
    true
}
