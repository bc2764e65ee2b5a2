//! Laws of frames in synchronous mode.

ghost use Rattle.std.specs.Prelude.{◌≡◌, Option};
ghost use Rattle.net_model.specs.Problems.{File, Problem, IsBuilt};
ghost use Rattle.net_model.specs.declared.class.Mode.TheVariants.{Sync};
ghost use Rattle.node_table.specs.Table.{Table};
ghost use Rattle.net_frame.specs.Frames.{Frame, FitsProblem};
ghost use Rattle.frame_words.specs.Letters.{SpellsParts};
ghost use Rattle.frame_words.specs.Levels.{AreInOrder};

/// What bits spell at the letters of F, of S and of X are the parts of the joint letter that they spell.
pub fn bits_spell_the_parts_of_joint_letters()
    ensures { (t : Table) (problem : Problem) (third : Option File) (frame : Frame) → IsBuilt problem → problem.topology.mode ≡ Sync → FitsProblem t problem third frame → SpellsParts problem.topology frame }
{}

/// The levels of all letters lie above those that F and S have for themselves.
pub fn letters_lie_above()
    ensures { (t : Table) (problem : Problem) (third : Option File) (frame : Frame) → IsBuilt problem → problem.topology.mode ≡ Sync → FitsProblem t problem third frame → AreInOrder t frame }
{}
