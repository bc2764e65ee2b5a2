//! A problem: two files, and the scopes of their equation.

ghost use Rattle.std.specs.Prelude.{◌≡◌, ◌<◌, ◌≤◌, ◌++◌, None, length, IfOk, IfErr};
ghost use Rattle.std.specs.Option.{option_map};
ghost use Rattle.net_model.specs.Problems.{file_of, problem_of, first_refusal, IsBuilt, IsSoundFile, IsRefusal};
ghost use Rattle.net_problem.specs.ProblemBits.{joint_bits, third_bits, problem_bits};

use crate::bit_counts::{bits_of_file, bits_of_letter};
use crate::scopes::{joint_of_files, scope_of, x_of_names};
use name_table::Scope;
use net_model::{File, Mode, NameList, NameRefusal};
use std::alloc::Global;
use std::marker::Model;

/// Two files with the scopes of their equation for an X with some names.
#[derive(Drop)]
pub struct Problem {
    mode: Mode,
    f: File,
    s: File,
    joint: Scope,
    x: Scope,
    inputs: u32,
}

impl Model for Problem {
    ghost use Rattle.net_model.specs.Problems as problems;
    ghost use Rattle.net_model.specs.Problems.{file_of, problem_with, IsBuilt};

    ghost Value = { problems.Problem };

    ghost view = { λ p. problem_with p.mode (file_of p.f) (file_of p.s) p.joint p.x p.inputs };

    ghost invariant = { λ p. IsBuilt (problem_with p.mode (file_of p.f) (file_of p.s) p.joint p.x p.inputs) };
}

impl Problem {
    /// The problem of these files, for an X with these names of inputs and of outputs. Else the refusal that comes
    /// first: the files are looked at before the names, the inputs before the outputs, and each list from its first
    /// name on.
    pub fn build(
        alloc: Global,
        mode: Mode,
        f: File,
        s: File,
        ins: &NameList,
        outs: &NameList,
    ) -> Result<Problem, NameRefusal>
        requires f_sound { IsSoundFile (file_of f) }
        requires s_sound { IsSoundFile (file_of s) }
        requires some { mode ≡ Mode.Parallel → 0 < length (ins.now ++ outs.now) }
        ensures ok { IfOk result (λ problem. problem ≡ problem_of mode (file_of f) (file_of s) ins.now outs.now) }
        ensures none { IfOk result (λ problem. first_refusal mode (file_of f) (file_of s) ins.now outs.now ≡ None) }
        ensures refused { IfErr result (λ refusal. IsRefusal refusal (first_refusal mode (file_of f) (file_of s) ins.now outs.now)) }
    {
        let joint = joint_of_files(alloc, mode, &f, &s)?;
        let x = x_of_names(alloc, mode, &joint, ins, outs)?;
        Ok(Problem {
            mode,
            f,
            s,
            joint: scope_of(joint),
            x: scope_of(x),
            inputs: ins.len() as u32,
        })
    }

    /// How the files are composed.
    pub fn mode(&self) -> Mode
        ensures mode { result ≡ self.now.topology.mode }
        ensures built { IsBuilt self.now }
    {
        self.mode
    }

    /// The fixed component.
    pub fn f(&self) -> &File
        ensures { file_of result.now ≡ self.now.f }
    {
        &self.f
    }

    /// The specification.
    pub fn s(&self) -> &File
        ensures { file_of result.now ≡ self.now.s }
    {
        &self.s
    }

    /// The variables of X: first its inputs, then its outputs.
    pub fn x(&self) -> &Scope
        ensures { result.now ≡ self.now.topology.x }
    {
        &self.x
    }

    /// The joint variables: those of F, and then those of S that F doesn't have.
    pub fn joint(&self) -> &Scope
        ensures { result.now ≡ self.now.topology.joint }
    {
        &self.joint
    }

    /// How many of X's variables are inputs; in parallel mode, how many of its actions.
    pub fn ins(&self) -> u32
        ensures { result ≡ self.now.topology.inputs }
    {
        self.inputs
    }

    /// How many bits its letters, signals and states have together, with a third file, which is X's in a check. A variable
    /// of n values has the least number b of bits with 2^b >= n. A latch counts twice, for its present and its next value. A
    /// signal that is a letter or a latch output doesn't count again, and a name that stands in an `.mv` line alone counts
    /// as a signal. In parallel mode the variables of the files count as the joint one, and X's letter counts besides.
    pub fn bits(&self, third: Option<&File>) -> u64
        ensures bits { result ≡ problem_bits self.now (option_map (λ file. file_of file.now) third.entry) }
    {
        self.letter_bits() + bits_of_file(&self.f) + bits_of_file(&self.s) + bits_of_third(third)
    }

    fn letter_bits(&self) -> u64
        ensures bits { result ≡ joint_bits self.now.topology }
        ensures few { result ≤ 1048576 }
    {
        match self.mode {
            Mode::Sync => bits_of_letter(self.joint()),
            Mode::Parallel => bits_of_letter(self.joint()) + bits_of_letter(self.x()),
        }
    }
}

fn bits_of_third(third: Option<&File>) -> u64
    ensures bits { result ≡ third_bits (option_map (λ file. file_of file.now) third.entry) }
    ensures few { result ≤ 262144 }
{
    match third {
        Some(file) => bits_of_file(file),
        None => 0,
    }
}
