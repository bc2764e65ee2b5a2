//! Where the codes of a problem stand.

ghost use Rattle.std.specs.Prelude.{◌≡◌, ◌<◌, ◌≤◌, ◌+◌, length, slice_get, Err, Some, IfOk, IfErr, IfSome, OnOk};
ghost use Rattle.std.specs.Option.{option_map};
ghost use Rattle.bdd_ops.specs.Levels.{IsSetOf};
ghost use Rattle.bdd_ops.specs.Meaning.{StandsFor};
ghost use Rattle.mv_encoding.specs.Layouts.{IsRefused};
ghost use Rattle.mv_encoding.specs.Spots.{AreValuesShort, AreLaid, all_levels, spell_values};
ghost use Rattle.name_table.specs.CodeBits.{bits_in};
ghost use Rattle.net_model.specs.Problems.{file_of, IsBuilt, IsSoundFile};
ghost use Rattle.net_problem.specs.ProblemBits.{file_bits, joint_bits, problem_bits};
ghost use Rattle.node_table.specs.Table.{Grows};
ghost use Rattle.net_frame.specs.Frames as frames;
ghost use Rattle.net_frame.specs.Frames.{frame_of, file_spots, bare_spots, joint_of, spots_in, IsThird, FitsProblem};
ghost use Rattle.net_frame.specs.Making.{AreJointCodes, FileHasLetters};

use crate::codes::{copied, planned};
use crate::file_frame::FileFrame;
use crate::joint::{codes_of_x, joint_codes};
use bdd_ops::{LevelMap, LevelSet};
use mv_encoding::{CodeFault, Coding, all_values};
use net_model::{File, Mode, Slot};
use net_problem::{Problem, bits_of_file};
use node_table::{MkFault, Ref, Space};
use std::alloc::{AllocError, Global};
use std::marker::Model;

// The most bits of a problem.
const MOST_BITS: u64 = 2_000;

/// The levels of a problem: those of X's letter first, then those of the other joint variables, and then what F, S and a
/// third file have for themselves. A latch has levels for its present and for its next value.
#[derive(Drop)]
pub struct Frame {
    mode: Mode,
    x: Coding,
    joint: Vec<Coding>,
    f: FileFrame,
    s: FileFrame,
    third: Option<FileFrame>,
    // what the slot X has where there is no third file
    bare: FileFrame,
}

impl Model for Frame {
    ghost use Rattle.std.specs.Prelude.{◌≡◌};
    ghost use Rattle.std.specs.Option.{option_map};
    ghost use Rattle.net_frame.specs.Frames as frames;
    ghost use Rattle.net_frame.specs.Frames.{bare_spots};

    ghost Value = { frames.Frame };

    ghost view = { λ f. record { mode = f.mode; x = f.x; joint = f.joint.items; f = f.f; s = f.s; third = f.third } };

    ghost invariant = { λ f. f.bare ≡ bare_spots f.mode f.x f.joint.items };
}

impl Frame {
    /// Puts the levels of a problem below all others and lays its codes on them, with a third file, which is X's in a check.
    /// It is refused exactly where there are more than 2,000 bits, and then no level came. Want of memory leaves levels that
    /// nothing stands on. It takes time linear in the sizes of the files, but that each signal is looked for among the
    /// letters and latches, and each letter among the joint variables.
    pub fn of(
        alloc: Global,
        space: &mut Space,
        problem: &Problem,
        third: Option<&File>,
    ) -> Result<Frame, CodeFault>
        requires levels { space.old.levels ≤ 4000 }
        requires third { IsThird problem.now (option_map (λ file. file_of file.now) third) }
        ensures fits { IfOk result (FitsProblem space.new problem.now (option_map (λ file. file_of file.now) third.entry)) }
        ensures first { IfOk result (λ frame. frame ≡ frame_of space.old.levels problem.now (option_map (λ file. file_of file.now) third.entry)) }
        ensures levels { OnOk result (space.new ≡ record space.old { levels = space.old.levels + problem_bits problem.now (option_map (λ file. file_of file.now) third.entry) }) }
        ensures few { OnOk result (problem_bits problem.now (option_map (λ file. file_of file.now) third.entry) ≤ 2000) }
        ensures grows { Grows space.old space.new }
        ensures refused { IfErr result (IsRefused (problem_bits problem.now (option_map (λ file. file_of file.now) third.entry))) }
        ensures over { 2000 < problem_bits problem.now (option_map (λ file. file_of file.now) third.entry) → result ≡ Err (CodeFault.Bits (problem_bits problem.now (option_map (λ file. file_of file.now) third.entry))) }
        ensures kept { 2000 < problem_bits problem.now (option_map (λ file. file_of file.now) third.entry) → space.new ≡ space.old }
        ensures most { space.new.levels ≤ space.old.levels + 2000 }
    {
        let bits = problem.bits(third);
        let first = space.levels();
        if bits > MOST_BITS {
            return Err(CodeFault::Bits(bits));
        }
        space.push_levels(bits as u32);
        let frame = Frame::from_level(alloc, first, problem, third)?;
        Ok(frame)
    }

    // The codes on the levels from the first on.
    fn from_level(
        alloc: Global,
        first: u32,
        problem: &Problem,
        third: Option<&File>,
    ) -> Result<Frame, AllocError>
        requires low { first ≤ 4000 }
        requires few { problem_bits problem.now (option_map (λ file. file_of file.now) third) ≤ 2000 }
        requires third { IsThird problem.now (option_map (λ file. file_of file.now) third) }
        ensures is { IfOk result (λ frame. frame ≡ frame_of first problem.now (option_map (λ file. file_of file.now) third.entry)) }
        ensures built { IsBuilt problem.now }
    {
        let mode = problem.mode();
        let x = planned(alloc, problem.x(), first)?;
        let (joint, own) = codes_of_joint(alloc, problem, &x)?;
        let f = FileFrame::of(alloc, mode, &joint, own, problem.f())?;
        let own = own + bits_of_file(problem.f()) as u32;
        let s = FileFrame::of(alloc, mode, &joint, own, problem.s())?;
        let own = own + bits_of_file(problem.s()) as u32;
        let third = frame_of_third(alloc, mode, &joint, own, third)?;
        let bare = bare_frame(alloc, mode, &x, &joint)?;
        Ok(Frame {
            mode,
            x,
            joint,
            f,
            s,
            third,
            bare,
        })
    }

    /// How the files of the problem are composed.
    pub fn mode(&self) -> Mode
        ensures { result ≡ self.now.mode }
    {
        self.mode
    }

    /// The coding of X's letter.
    pub fn x(&self) -> &Coding
        ensures { result.now ≡ self.now.x }
    {
        &self.x
    }

    /// The coding of one joint variable by itself. In synchronous mode one of X's has there the levels that it has in X's
    /// letter.
    pub fn joint(&self, k: u32) -> &Coding
        requires { k < length self.now.joint }
        ensures { slice_get self.now.joint k ≡ Some result.now }
    {
        &self.joint[k as usize]
    }

    /// The levels of a slot's letters. In parallel mode they are those of the joint action; in synchronous mode a slot
    /// without a file has X's letters.
    pub fn letters(&self, slot: Slot) -> &LevelSet
        ensures { IsSetOf (all_levels (spots_in self.now slot).letters) result.now }
    {
        self.file(slot).letter_levels()
    }

    /// The levels of the present values of a slot's latches.
    pub fn present(&self, slot: Slot) -> &LevelSet
        ensures { IsSetOf (all_levels (spots_in self.now slot).present) result.now }
    {
        self.file(slot).present_levels()
    }

    /// The levels of the next values of a slot's latches.
    pub fn next(&self, slot: Slot) -> &LevelSet
        ensures { IsSetOf (all_levels (spots_in self.now slot).next) result.now }
    {
        self.file(slot).next_levels()
    }

    /// The map from the levels of next values to those of present ones.
    pub fn back(&self, slot: Slot) -> &LevelMap
        ensures { result.now ≡ (spots_in self.now slot).back }
    {
        self.file(slot).back()
    }

    /// The codes of a slot's letters, in their order.
    pub fn letter_codings(&self, slot: Slot) -> &[Coding]
        ensures { result.now ≡ (spots_in self.now slot).letters }
    {
        self.file(slot).letters()
    }

    /// The codes of a slot's signals, by their numbers.
    pub fn signal_codings(&self, slot: Slot) -> &[Coding]
        ensures { result.now ≡ (spots_in self.now slot).signals }
    {
        self.file(slot).signals()
    }

    /// The codes of the present values of a slot's latches, in their order.
    pub fn present_codings(&self, slot: Slot) -> &[Coding]
        ensures { result.now ≡ (spots_in self.now slot).present }
    {
        self.file(slot).present()
    }

    /// The codes of the next values of a slot's latches, in their order.
    pub fn next_codings(&self, slot: Slot) -> &[Coding]
        ensures { result.now ≡ (spots_in self.now slot).next }
    {
        self.file(slot).next()
    }

    /// The set of a slot's letters, in parallel mode of the joint letters: 1 exactly where each code of a letter stands for a
    /// value. It depends on the levels of `letters(slot)` alone.
    pub fn valid(&self, space: &mut Space, slot: Slot) -> Result<Ref, MkFault>
        requires { AreLaid space.old (spots_in self.now slot).letters }
        ensures ok { IfOk result (λ r. StandsFor space.new r (spell_values (spots_in self.now slot).letters)) }
        ensures grows { Grows space.old space.new }
        ensures levels { space.new.levels ≡ space.old.levels }
        ensures full { result ≡ Err MkFault.Full → length space.new.nodes ≡ space.new.limit }
        ensures needed { result ≡ Err MkFault.Full → AreValuesShort space.new (spots_in self.now slot).letters }
    {
        all_values(space, self.letter_codings(slot))
    }

    // The codes of the file in a slot.
    fn file(&self, slot: Slot) -> &FileFrame
        ensures { result.now ≡ spots_in self.now slot }
    {
        match slot {
            Slot::F => &self.f,
            Slot::S => &self.s,
            Slot::X => match &self.third {
                Some(third) => third,
                None => &self.bare,
            },
        }
    }
}

// The codes of the joint variables, and the level behind them.
fn codes_of_joint(
    alloc: Global,
    problem: &Problem,
    x: &Coding,
) -> Result<(Vec<Coding>, u32), AllocError>
    requires x { x.now.scope ≡ problem.now.topology.x }
    requires room { x.now.first + joint_bits problem.now.topology ≤ 8192 }
    ensures codes { IfOk result (λ made. made.0.items ≡ joint_of problem.now.topology x.now.first) }
    ensures behind { IfOk result (λ made. made.1 ≡ x.now.first + joint_bits problem.now.topology) }
    ensures good { IfOk result (λ made. AreJointCodes made.0.items) }
{
    let mode = problem.mode();
    joint_codes(alloc, mode, problem.joint(), x, x.first() + x.bits())
}

fn frame_of_third(
    alloc: Global,
    mode: Mode,
    joint: &[Coding],
    start: u32,
    third: Option<&File>,
) -> Result<Option<FileFrame>, AllocError>
    requires joint { AreJointCodes joint.now }
    requires third { IfSome third (λ file. IsSoundFile (file_of file.now) × FileHasLetters mode joint.now (file_of file.now) × (start + file_bits (file_of file.now) ≤ 8192)) }
    ensures { IfOk result (λ made. made ≡ option_map (λ file. file_spots mode joint.now start (file_of file.now)) third.entry) }
{
    match third {
        Some(file) => Ok(Some(FileFrame::of(alloc, mode, joint, start, file)?)),
        None => Ok(None),
    }
}

// What the slot X has where there is no third file.
fn bare_frame(
    alloc: Global,
    mode: Mode,
    x: &Coding,
    joint: &[Coding],
) -> Result<FileFrame, AllocError>
    requires x { x.now.first + bits_in x.now.scope ≤ 8192 }
    requires joint { AreJointCodes joint.now }
    ensures { IfOk result (λ bare. bare ≡ bare_spots mode x.now joint.now) }
{
    let letters = bare_letters(alloc, mode, x, joint)?;
    FileFrame::of_letters(alloc, letters)
}

fn bare_letters(
    alloc: Global,
    mode: Mode,
    x: &Coding,
    joint: &[Coding],
) -> Result<Vec<Coding>, AllocError>
    requires x { x.now.first + bits_in x.now.scope ≤ 8192 }
    requires joint { AreJointCodes joint.now }
    ensures codes { IfOk result (λ codes. codes.items ≡ frames.bare_letters mode x.now joint.now) }
    ensures few { IfOk result (λ codes. length codes.items ≤ 16384) }
{
    match mode {
        Mode::Sync => codes_of_x(alloc, x),
        Mode::Parallel => copies(alloc, joint),
    }
}

fn copies(alloc: Global, codes: &[Coding]) -> Result<Vec<Coding>, AllocError>
    requires { AreJointCodes codes.now }
    ensures copies { IfOk result (λ copies. copies.items ≡ codes.now) }
    ensures few { IfOk result (λ copies. length copies.items ≤ 16384) }
{
    let mut copies = Vec::new(alloc);
    for code in codes {
        copies.push(copied(alloc, code)?)?;
    }
    Ok(copies)
}
