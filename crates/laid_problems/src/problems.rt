//! Problems of texts, and the levels of one.

ghost use Rattle.std.specs.Prelude.{◌≡◌, IfOk, None};
ghost use Rattle.net_model.specs.Problems as problems;
ghost use Rattle.net_model.specs.Problems.{IsSoundFile};
ghost use Rattle.net_model.specs.declared.class.Mode.TheVariants.{Sync};
ghost use Rattle.net_frame.specs.Frames.{FitsProblem};

use blifmv_reader::read_net;
use net_frame::Frame;
use net_model::{File, Mode, NameList, NameRefusal, TextFault};
use net_problem::Problem;
use node_table::Space;
use std::alloc::{AllocError, Global};
use std::test::Fail;

fn list_of(alloc: Global, names: &str) -> Result<NameList, AllocError> {
    let mut list = NameList::new(alloc);
    for name in names.split_whitespace() {
        list.push(name.as_bytes())?;
    }
    Ok(list)
}

/// The network of a text.
pub fn file_of(alloc: Global, text: &[u8]) -> Result<File, TextFault>
    ensures { IfOk result (λ file. IsSoundFile (problems.file_of file)) }
{
    match read_net(alloc, text) {
        Ok(net) => Ok(File::Net(net)),
        Err(fault) => Err(fault),
    }
}

fn problem_with(
    alloc: Global,
    f: File,
    s: File,
    names: (&str, &str),
) -> Result<Result<Problem, NameRefusal>, AllocError>
    requires f { IsSoundFile (problems.file_of f) }
    requires s { IsSoundFile (problems.file_of s) }
    ensures { IfOk result (λ built. IfOk built (λ problem. problem.topology.mode ≡ Sync)) }
{
    let ins = list_of(alloc, names.0)?;
    let outs = list_of(alloc, names.1)?;
    Ok(Problem::build(alloc, Mode::Sync, f, s, &ins, &outs))
}

/// The synchronous problem of two texts, for an X with these inputs and outputs.
pub fn problem_of(
    alloc: Global,
    texts: (&[u8], &[u8]),
    names: (&str, &str),
) -> Result<Problem, Fail>
    ensures { IfOk result (λ problem. problem.topology.mode ≡ Sync) }
{
    let f = file_of(alloc, texts.0)?;
    let s = file_of(alloc, texts.1)?;
    match problem_with(alloc, f, s, names)? {
        Ok(problem) => Ok(problem),
        Err(_) => Err(Fail::new("no problem")),
    }
}

/// A problem, a space with its levels, and where they stand.
pub type Laid = (Problem, Space, Frame);

/// A space with the levels of a problem.
fn space_of(alloc: Global, problem: &Problem, limit: u32) -> Result<(Space, Frame), Fail>
    ensures { IfOk result (λ made. FitsProblem made.0 problem.now None made.1) }
{
    let mut space = Space::with_limit(alloc, u64::from(limit))?;
    let frame = Frame::of(alloc, &mut space, problem, None)?;
    Ok((space, frame))
}

/// The problem of two texts with a space of its levels, which may hold so many nodes.
pub fn laid_problem(
    alloc: Global,
    texts: (&[u8], &[u8]),
    names: (&str, &str),
    limit: u32,
) -> Result<Laid, Fail>
    ensures sync { IfOk result (λ made. made.0.topology.mode ≡ Sync) }
    ensures fits { IfOk result (λ made. FitsProblem made.1 made.0 None made.2) }
{
    let problem = problem_of(alloc, texts, names)?;
    let (space, frame) = space_of(alloc, &problem, limit)?;
    Ok((problem, space, frame))
}

/// Drops a problem. A caller that drops one itself has all its parts in its own proof.
pub fn drop_problem(_problem: Problem) {}

/// Drops the codes of a problem.
pub fn drop_frame(_frame: Frame) {}

/// Drops a space.
pub fn drop_space(_space: Space) {}
