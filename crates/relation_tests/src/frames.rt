//! Where the letters, signals and states of a problem stand, as was counted by hand, and which codes are of values.

ghost use Rattle.std.specs.Prelude.{◌≡◌, ◌≤◌, IfOk, IfSome, None};
ghost use Rattle.node_table.specs.Table.{IsValid};
ghost use Rattle.mv_encoding.specs.Layouts.{IsLaid};
ghost use Rattle.mv_encoding.specs.Spots.{IsSpot, AreSpots, AreLaid};
ghost use Rattle.net_model.specs.declared.class.Mode.TheVariants.{Sync};
ghost use Rattle.net_frame.specs.Frames.{FitsProblem};

use crate::shown::has_paths;
use bdd_ops::{LevelMap, LevelSet};
use laid_problems::{Laid, drop_frame, drop_problem, drop_space, laid_problem, problem_of};
use mv_encoding::{CodeFault, Coding, all_values, apart_codes_are_of_values, same_number};
use net_frame::{Frame, letters_are_laid};
use net_model::{Mode, Slot};
use net_problem::Problem;
use node_table::{MkFault, Ref, Space};
use std::alloc::Global;
use std::test::Fail;

// Three values have the input i, the latch c and its input n.
const F: &str =
    ".model f\n.inputs i\n.outputs u\n.mv i,n,c 3\n.latch n c\n.table i -> n\n- =i\n.table c -> u\n.default 1\n0 0\n";

const S: &str = ".model s\n.inputs u o\n";

// The levels of X's letter are those of u and o, 0 and 1. The joint variables are i, u and o, and i stands behind X's letter.
// Of F's own there are then n, c, and c's next value; S has nothing of its own.
const JOINT: [(u32, (u32, u32)); 3] = [(0, (2, 2)), (1, (0, 1)), (2, (1, 1))];

// The values of i, n and c; u may have any.
const VALUES: &str =
    "--0-0-0--- --0-0-10-- --0-100--- --0-1010-- --100-0--- --100-10-- --10100--- --101010--";

// Of a slot: the levels of its letters, of its present and of its next values; where the codes of its letters, of its
// signals, and of present and next values begin; where its map leads.
type Spots<'a> = (Slot, [&'a [u32]; 3], [&'a [u32]; 4], &'a [(u32, u32)]);

const SPOTS: [Spots<'static>; 3] = [
    (
        Slot::F,
        [&[0, 2, 3], &[6, 7], &[8, 9]],
        [&[2, 0], &[2, 0, 4, 6], &[6], &[8]],
        &[(8, 6), (9, 7)],
    ),
    (
        Slot::S,
        [&[0, 1], &[], &[]],
        [&[0, 1], &[0, 1], &[], &[]],
        &[],
    ),
    (Slot::X, [&[0, 1], &[], &[]], [&[0, 1], &[], &[], &[]], &[]),
];

// The same of X with F once more as its file.
const THIRD: Spots<'static> = (
    Slot::X,
    [&[0, 2, 3], &[12, 13], &[14, 15]],
    [&[2, 0], &[2, 0, 10, 12], &[12], &[14]],
    &[(14, 12), (15, 13)],
);

fn has_levels(levels: &LevelSet, want: &[u32]) -> bool {
    for place in 0..levels.len() {
        if levels.at(place) != want.get(place as usize).copied() {
            return false;
        }
    }
    want.len() == levels.len() as usize
}

fn begin_at(codings: &[Coding], firsts: &[u32]) -> bool {
    for place in 0..codings.len() {
        if firsts.get(place) != Some(&codings[place].first()) {
            return false;
        }
    }
    firsts.len() == codings.len()
}

fn leads(map: &LevelMap, pairs: &[(u32, u32)]) -> bool {
    for place in 0..map.len() {
        if map.at(place) != pairs.get(place as usize).copied() {
            return false;
        }
    }
    pairs.len() == map.len() as usize
}

fn has_sets(frame: &Frame, slot: Slot, sets: [&[u32]; 3]) -> bool {
    has_levels(frame.letters(slot), sets[0])
        && has_levels(frame.present(slot), sets[1])
        && has_levels(frame.next(slot), sets[2])
}

fn has_codes(frame: &Frame, slot: Slot, firsts: [&[u32]; 4]) -> bool {
    begin_at(frame.letter_codings(slot), firsts[0])
        && begin_at(frame.signal_codings(slot), firsts[1])
        && begin_at(frame.present_codings(slot), firsts[2])
        && begin_at(frame.next_codings(slot), firsts[3])
}

fn is_spot(
    frame: &Frame,
    slot: Slot,
    sets: [&[u32]; 3],
    firsts: [&[u32]; 4],
    pairs: &[(u32, u32)],
) -> bool {
    has_sets(frame, slot, sets) && has_codes(frame, slot, firsts) && leads(frame.back(slot), pairs)
}

// Whether the code of a joint variable begins at this level and has so many bits.
fn is_joint_code(space: &Space, problem: &Problem, frame: &Frame, k: u32, want: (u32, u32)) -> bool
    requires { FitsProblem space.now problem.now None frame.now }
{
    if k >= problem.joint().len() {
        return false;
    }
    let code = frame.joint(k);
    code.first() == want.0 && code.bits() == want.1
}

// Whether all codes stand where they were counted.
fn are_placed(space: &Space, problem: &Problem, frame: &Frame) -> bool
    requires { FitsProblem space.now problem.now None frame.now }
{
    for (k, want) in JOINT {
        if !is_joint_code(space, problem, frame, k, want) {
            return false;
        }
    }
    for (slot, sets, firsts, pairs) in SPOTS {
        if !is_spot(frame, slot, sets, firsts, pairs) {
            return false;
        }
    }
    frame.mode() == Mode::Sync && frame.x().first() == 0 && frame.x().bits() == 2
}

#[test]
fn places_codes(rt: HostRuntime) -> Result<(), Fail> {
    let (problem, space, frame) = set_up(rt.alloc())?;
    let right = are_placed(&space, &problem, &frame) && space.levels() == 10;
    drop_problem(problem);
    drop_frame(frame);
    drop_space(space);
    assert!(rt; right);
    Ok(())
}

// The frame of a problem with F once more as the file of X.
fn frame_with_third(alloc: Global, space: &mut Space, problem: &Problem) -> Result<Frame, CodeFault>
    requires { space.old.levels ≤ 4000 }
{
    let _mode = problem.mode();
    Frame::of(alloc, space, problem, Some(problem.f()))
}

fn is_third_placed(alloc: Global, problem: &Problem) -> Result<bool, CodeFault> {
    let mut space = Space::with_limit(alloc, 0)?;
    let frame = frame_with_third(alloc, &mut space, problem)?;
    let right = is_spot(&frame, THIRD.0, THIRD.1, THIRD.2, THIRD.3) && space.levels() == 16;
    drop_frame(frame);
    Ok(right)
}

#[test]
fn places_a_third_file(rt: HostRuntime) -> Result<(), Fail> {
    let problem = problem_of(rt.alloc(), (F.as_bytes(), S.as_bytes()), ("u", "o"))?;
    let right = is_third_placed(rt.alloc(), &problem);
    drop_problem(problem);
    assert!(rt; right?);
    Ok(())
}

fn set_up(alloc: Global) -> Result<Laid, Fail>
    ensures sync { IfOk result (λ made. made.0.topology.mode ≡ Sync) }
    ensures fits { IfOk result (λ made. FitsProblem made.1 made.0 None made.2) }
{
    laid_problem(alloc, (F.as_bytes(), S.as_bytes()), ("u", "o"), 1_000)
}

// The set of a slot's letters.
fn letters_of(
    space: &mut Space,
    problem: &Problem,
    frame: &Frame,
    slot: Slot,
) -> Result<Ref, MkFault>
    requires { FitsProblem space.old problem.now None frame.now }
    ensures { IfOk result (IsValid space.new) }
{
    let _mode = problem.mode();
    letters_are_laid();
    frame.valid(space, slot)
}

// The codes of F's signals.
fn signals_of_f<'a>(space: &Space, problem: &Problem, frame: &'a Frame) -> &'a [Coding]
    requires sync { problem.now.topology.mode ≡ Sync }
    requires fits { FitsProblem space.now problem.now None frame.now }
    ensures spots { AreSpots result.now }
    ensures laid { AreLaid space.now result.now }
{
    frame.signal_codings(Slot::F)
}

fn has_letters(alloc: Global, slot: Slot, patterns: &str) -> Result<bool, Fail> {
    let (problem, mut space, frame) = set_up(alloc)?;
    let right = are_letters(&mut space, &problem, &frame, slot, patterns);
    drop_problem(problem);
    drop_frame(frame);
    drop_space(space);
    right
}

fn are_letters(
    space: &mut Space,
    problem: &Problem,
    frame: &Frame,
    slot: Slot,
    patterns: &str,
) -> Result<bool, Fail>
    requires { FitsProblem space.old problem.now None frame.now }
{
    let r = letters_of(space, problem, frame, slot)?;
    Ok(has_paths(space, r, patterns))
}

// The bits that spell a value at each of F's signals.
fn values_of_f(space: &mut Space, problem: &Problem, frame: &Frame) -> Result<Ref, MkFault>
    requires sync { problem.now.topology.mode ≡ Sync }
    requires fits { FitsProblem space.old problem.now None frame.now }
    ensures { IfOk result (IsValid space.new) }
{
    let codes = signals_of_f(space, problem, frame);
    all_values(space, codes)
}

fn are_values(
    space: &mut Space,
    problem: &Problem,
    frame: &Frame,
    patterns: &str,
) -> Result<bool, Fail>
    requires sync { problem.now.topology.mode ≡ Sync }
    requires fits { FitsProblem space.old problem.now None frame.now }
{
    let r = values_of_f(space, problem, frame)?;
    Ok(has_paths(space, r, patterns))
}

fn has_values(alloc: Global, patterns: &str) -> Result<bool, Fail> {
    let (problem, mut space, frame) = set_up(alloc)?;
    let right = are_values(&mut space, &problem, &frame, patterns);
    drop_problem(problem);
    drop_frame(frame);
    drop_space(space);
    right
}

// The code of one of F's signals.
fn signal_of_f<'a>(
    space: &Space,
    problem: &Problem,
    frame: &'a Frame,
    signal: usize,
) -> Option<&'a Coding>
    requires sync { problem.now.topology.mode ≡ Sync }
    requires fits { FitsProblem space.now problem.now None frame.now }
    ensures { IfSome result (λ code. IsSpot code.now × IsLaid code.now space.now) }
{
    let codes = signals_of_f(space, problem, frame);
    if signal < codes.len() {
        Some(&codes[signal])
    } else {
        None
    }
}

// The bits that spell one number at two codes of one variable, which have as many bits each.
fn same_in(space: &mut Space, a: &Coding, b: &Coding) -> Option<Ref>
    requires a { IsSpot a.now × IsLaid a.now space.old }
    requires b { IsSpot b.now × IsLaid b.now space.old }
    ensures { IfSome result (IsValid space.new) }
{
    if a.bits() != b.bits() {
        return None;
    }
    same_number(space, a, b).ok()
}

// The same at two of F's signals.
fn same_signals(
    space: &mut Space,
    problem: &Problem,
    frame: &Frame,
    a: usize,
    b: usize,
) -> Option<Ref>
    requires sync { problem.now.topology.mode ≡ Sync }
    requires fits { FitsProblem space.old problem.now None frame.now }
    ensures { IfSome result (IsValid space.new) }
{
    let a = signal_of_f(space, problem, frame, a)?;
    let b = signal_of_f(space, problem, frame, b)?;
    same_in(space, a, b)
}

fn are_alike(
    space: &mut Space,
    problem: &Problem,
    frame: &Frame,
    pair: (usize, usize),
    patterns: &str,
) -> bool
    requires sync { problem.now.topology.mode ≡ Sync }
    requires fits { FitsProblem space.old problem.now None frame.now }
{
    match same_signals(space, problem, frame, pair.0, pair.1) {
        Some(r) => has_paths(space, r, patterns),
        None => false,
    }
}

fn spell_alike(alloc: Global, pair: (usize, usize), patterns: &str) -> Result<bool, Fail> {
    let (problem, mut space, frame) = set_up(alloc)?;
    let right = are_alike(&mut space, &problem, &frame, pair, patterns);
    drop_problem(problem);
    drop_frame(frame);
    drop_space(space);
    Ok(right)
}

#[test]
fn draws_values(rt: HostRuntime) -> Result<(), Fail> {
    for (slot, patterns) in [
        (Slot::F, "--0------- --10------"),
        (Slot::S, "----------"),
        (Slot::X, "----------"),
    ] {
        assert!(rt; has_letters(rt.alloc(), slot, patterns)?);
    }
    assert!(rt; has_values(rt.alloc(), VALUES)?);
    assert!(rt;
        spell_alike(
            rt.alloc(),
            (0, 2),
            "--0000---- --0101---- --1010---- --1111----"
        )?
    );
    apart_codes_are_of_values();
    Ok(())
}
