//! Where the codes of one file stand.

ghost use Rattle.std.specs.Prelude.{◌≡◌, ◌<◌, ◌≤◌, ◌+◌, ◌^◌, [], length, IfOk};
ghost use Rattle.bdd_ops.specs.Levels.{IsSetOf};
ghost use Rattle.mv_encoding.specs.Spots.{all_levels};
ghost use Rattle.name_table.specs.CodeBits.{bits_in};
ghost use Rattle.net_model.specs.Nets.{net_of};
ghost use Rattle.net_model.specs.Problems.{file_of, IsSoundFile};
ghost use Rattle.net_model.specs.Machines.{machine_of, IsSoundMachine};
ghost use Rattle.net_model.specs.Outlines.{outline_of, IsWired};
ghost use Rattle.net_problem.specs.ProblemBits.{own_scope, file_bits};
ghost use Rattle.net_frame.specs.Frames.{file_spots, net_spots};
ghost use Rattle.net_frame.specs.Making.{AreJointCodes, HasLetters, FileHasLetters};

use crate::codes::set_of_levels;
use crate::latches::{codes_of_next, codes_of_present, pairs_of_latches};
use crate::letters::{bits_before_each, codes_of_letters, codes_of_signals};
use bdd_ops::{LevelMap, LevelSet};
use mv_encoding::Coding;
use net_model::{File, Machine, Mode, Net};
use std::alloc::{AllocError, Global};
use std::marker::Model;

/// The codes of a file's letters, of its signals, and of the present and the next values of its latches.
#[derive(Drop)]
pub(crate) struct FileFrame {
    letters: Vec<Coding>,
    signals: Vec<Coding>,
    present: Vec<Coding>,
    next: Vec<Coding>,
    letter_levels: LevelSet,
    present_levels: LevelSet,
    next_levels: LevelSet,
    back: LevelMap,
}

impl Model for FileFrame {
    ghost use Rattle.bdd_ops.specs.Levels.{IsSetOf};
    ghost use Rattle.mv_encoding.specs.Spots.{all_levels};
    ghost use Rattle.net_frame.specs.Placing.{FileSpots};
    ghost use Rattle.net_frame.specs.Making.{AreLevels};

    ghost Value = { FileSpots };

    ghost view = { λ f. record { letters = f.letters.items; signals = f.signals.items; present = f.present.items; next = f.next.items; back = f.back } };

    ghost invariant = { λ f. AreLevels f.letters.items f.present.items f.next.items f.letter_levels f.present_levels f.next_levels };
}

impl FileFrame {
    /// The codes of a file: of its letters among the joint ones, and the others from the first level on.
    pub(crate) fn of(
        alloc: Global,
        mode: Mode,
        joint: &[Coding],
        start: u32,
        file: &File,
    ) -> Result<FileFrame, AllocError>
        requires sound { IsSoundFile (file_of file.now) }
        requires joint { AreJointCodes joint.now }
        requires there { FileHasLetters mode joint.now (file_of file.now) }
        requires room { start + file_bits (file_of file.now) ≤ 8192 }
        ensures { IfOk result (λ frame. frame ≡ file_spots mode joint.now start (file_of file.now)) }
    {
        match file {
            File::Net(net) => FileFrame::of_net(alloc, mode, joint, start, net),
            File::Machine(machine) => FileFrame::of_machine(alloc, mode, joint, start, machine),
        }
    }

    fn of_machine(
        alloc: Global,
        mode: Mode,
        joint: &[Coding],
        start: u32,
        machine: &Machine,
    ) -> Result<FileFrame, AllocError>
        requires sound { IsSoundMachine (machine_of machine.now) }
        requires joint { AreJointCodes joint.now }
        requires there { HasLetters mode joint.now (outline_of (machine_of machine.now)) }
        requires room { start + bits_in (own_scope (outline_of (machine_of machine.now))) ≤ 8192 }
        ensures { IfOk result (λ frame. frame ≡ net_spots mode joint.now start (outline_of (machine_of machine.now))) }
    {
        let outline = machine.outline(alloc)?;
        FileFrame::of_net(alloc, mode, joint, start, &outline)
    }

    fn of_net(
        alloc: Global,
        mode: Mode,
        joint: &[Coding],
        start: u32,
        net: &Net,
    ) -> Result<FileFrame, AllocError>
        requires sound { IsWired (net_of net.now) }
        requires joint { AreJointCodes joint.now }
        requires there { HasLetters mode joint.now (net_of net.now) }
        requires room { start + bits_in (own_scope (net_of net.now)) ≤ 8192 }
        ensures { IfOk result (λ frame. frame ≡ net_spots mode joint.now start (net_of net.now)) }
    {
        let before = bits_before_each(alloc, net)?;
        let letters = codes_of_letters(alloc, mode, joint, net)?;
        let signals = codes_of_signals(alloc, mode, joint, start, net, &before)?;
        let present = codes_of_present(alloc, start, net, &before)?;
        let next = codes_of_next(alloc, start, net, &before)?;
        let pairs = pairs_of_latches(alloc, start, net, &before)?;
        let back = LevelMap::of(alloc, &pairs)?;
        FileFrame::with(alloc, letters, signals, present, next, back)
    }

    /// The codes of letters alone.
    pub(crate) fn of_letters(alloc: Global, letters: Vec<Coding>) -> Result<FileFrame, AllocError>
        requires { length letters.items ≤ 16384 }
        ensures { IfOk result (λ frame. frame ≡ record { letters = letters.items; signals = []; present = []; next = []; back = [] }) }
    {
        let back = LevelMap::of(alloc, &[])?;
        let signals = Vec::new(alloc);
        let present = Vec::new(alloc);
        FileFrame::with(alloc, letters, signals, present, Vec::new(alloc), back)
    }

    // These codes, with the levels of each list.
    fn with(
        alloc: Global,
        letters: Vec<Coding>,
        signals: Vec<Coding>,
        present: Vec<Coding>,
        next: Vec<Coding>,
        back: LevelMap,
    ) -> Result<FileFrame, AllocError>
        requires letters { length letters.items ≤ 16384 }
        requires present { length present.items ≤ 16384 }
        requires next { length next.items ≤ 16384 }
        ensures { IfOk result (λ frame. frame ≡ record { letters = letters.items; signals = signals.items; present = present.items; next = next.items; back = back }) }
    {
        let letter_levels = set_of_levels(alloc, &letters)?;
        let present_levels = set_of_levels(alloc, &present)?;
        let next_levels = set_of_levels(alloc, &next)?;
        Ok(FileFrame {
            letters,
            signals,
            present,
            next,
            letter_levels,
            present_levels,
            next_levels,
            back,
        })
    }

    pub(crate) fn letters(&self) -> &[Coding]
        ensures { result.now ≡ self.now.letters }
    {
        &self.letters
    }

    pub(crate) fn signals(&self) -> &[Coding]
        ensures { result.now ≡ self.now.signals }
    {
        &self.signals
    }

    pub(crate) fn present(&self) -> &[Coding]
        ensures { result.now ≡ self.now.present }
    {
        &self.present
    }

    pub(crate) fn next(&self) -> &[Coding]
        ensures { result.now ≡ self.now.next }
    {
        &self.next
    }

    pub(crate) fn letter_levels(&self) -> &LevelSet
        ensures { IsSetOf (all_levels self.now.letters) result.now }
    {
        &self.letter_levels
    }

    pub(crate) fn present_levels(&self) -> &LevelSet
        ensures { IsSetOf (all_levels self.now.present) result.now }
    {
        &self.present_levels
    }

    pub(crate) fn next_levels(&self) -> &LevelSet
        ensures { IsSetOf (all_levels self.now.next) result.now }
    {
        &self.next_levels
    }

    pub(crate) fn back(&self) -> &LevelMap
        ensures { result.now ≡ self.now.back }
    {
        &self.back
    }
}
