//! Problems of texts, and why there is none, worked out by hand from the definitions of `net_model`.

ghost use Rattle.std.specs.Prelude.{◌<◌, length, IfOk};
ghost use Rattle.net_model.specs.Problems as problems;
ghost use Rattle.net_model.specs.Problems.{IsSoundFile};

use crate::shown::{put, put_domain, put_name, put_number, put_signals};
use blifmv_reader::read_net;
use name_table::Scope;
use net_model::{File, Mode, NameList, NameRefusal, Net, Slot, TextFault};
use net_problem::Problem;
use std::alloc::{AllocError, Global};
use std::test::Fail;

const F: &str =
    ".model f\n.inputs i v\n.outputs u o\n.mv v 3 a b c\n.table i -> u\n- =i\n.table v -> o\n.default 0\na 1\n";

const S: &str = ".model s\n.inputs o i\n.outputs i q\n.table o i -> q\n.default 0\n1 1 1\n";
// an automaton of one variable, and one of another
const ONE: &str =
    ".model one\n.inputs e\n.outputs Acc\n.mv e 3 x CS z\n.latch n c\n.reset c\n0\n.table e -> n\n- 0\n.table c -> Acc\n- 1\n";

const OTHER: &str =
    ".model other\n.inputs d\n.outputs Acc\n.mv d 2 z w\n.latch n c\n.reset c\n0\n.table d -> n\n- 0\n.table c -> Acc\n- 1\n";
// an automaton of two variables
const TWO: &str =
    ".model two\n.inputs e d\n.outputs Acc\n.latch n c\n.reset c\n0\n.table e d -> n\n- - 0\n.table c -> Acc\n- 1\n";

const V_OF_TWO: &str = ".model s\n.inputs v i\n";

const I_OF_THREE: &str = ".model s\n.inputs v i\n.mv i 3\n";

const RESERVED: &str = ".model r\n.inputs CS i\n";

// A variable with the names of its values.
fn put_var(out: &mut Vec<u8>, scope: &Scope, place: u32) -> Result<(), AllocError> {
    put_name(out, " ", scope.name(place))?;
    put(out, ":")?;
    match scope.domain(place) {
        Some(domain) => put_domain(out, "", domain, ","),
        None => Ok(()),
    }
}

// The mark, and then the variables.
fn put_scope(out: &mut Vec<u8>, mark: &str, scope: &Scope) -> Result<(), AllocError> {
    put(out, mark)?;
    for place in 0..scope.len() {
        put_var(out, scope, place)?;
    }
    Ok(())
}

// The mark, and then the letters of the network.
fn put_letters(out: &mut Vec<u8>, mark: &str, net: &Net) -> Result<(), AllocError> {
    put(out, mark)?;
    let letters = net.letters(*out.allocator())?;
    put_signals(out, &net.names, letters.as_slice())
}

fn put_file(out: &mut Vec<u8>, file: &File) -> Result<(), AllocError> {
    match file {
        File::Net(net) => put_letters(
            out,
            if net.has_acc() {
                "automaton"
            } else {
                "network"
            },
            net,
        ),
        File::Machine(_) => put(out, "machine"),
    }
}

fn put_files(out: &mut Vec<u8>, problem: &Problem) -> Result<(), AllocError> {
    put_file(out, problem.f())?;
    put(out, "; ")?;
    put_file(out, problem.s())
}

fn mode_of(problem: &Problem) -> &'static str {
    match problem.mode() {
        Mode::Sync => "; sync",
        Mode::Parallel => "; parallel",
    }
}

fn put_problem(out: &mut Vec<u8>, problem: &Problem) -> Result<(), AllocError> {
    put_files(out, problem)?;
    put_scope(out, mode_of(problem), problem.joint())?;
    put_scope(out, "; x", problem.x())?;
    put_number(out, "; inputs ", problem.ins())
}

fn put_refusal(out: &mut Vec<u8>, refusal: &NameRefusal) -> Result<(), AllocError> {
    match refusal {
        NameRefusal::UnknownName(name) => put_name(out, "unknown ", Some(name.as_slice())),
        NameRefusal::RepeatedName(name) => put_name(out, "repeated ", Some(name.as_slice())),
        NameRefusal::InBoth(name) => put_name(out, "in both ", Some(name.as_slice())),
        NameRefusal::ReservedName(name) => put_name(out, "reserved ", Some(name.as_slice())),
        NameRefusal::DomainDiffers(name) => put_name(out, "another domain ", Some(name.as_slice())),
        NameRefusal::LettersDiffer(name) => put_name(out, "other letters ", Some(name.as_slice())),
        NameRefusal::NotOneVariable(slot) => put(out, not_one(*slot)),
        NameRefusal::Memory => put(out, "out of memory"),
    }
}

fn not_one(slot: Slot) -> &'static str {
    match slot {
        Slot::F => "not one variable in F",
        Slot::S => "not one variable in S",
        Slot::X => "not one variable in X",
    }
}

fn list_of(alloc: Global, names: &str) -> Result<NameList, AllocError> {
    let mut list = NameList::new(alloc);
    for name in names.split_whitespace() {
        list.push(name.as_bytes())?;
    }
    Ok(list)
}

fn file_of(alloc: Global, text: &str) -> Result<File, TextFault>
    ensures { IfOk result (λ file. IsSoundFile (problems.file_of file)) }
{
    match read_net(alloc, text.as_bytes()) {
        Ok(net) => Ok(File::Net(net)),
        Err(fault) => Err(fault),
    }
}

fn problem_text(alloc: Global, problem: &Problem) -> Result<Vec<u8>, AllocError> {
    let mut out = Vec::new(alloc);
    put_problem(&mut out, problem)?;
    Ok(out)
}

fn refusal_text(alloc: Global, refusal: &NameRefusal) -> Result<Vec<u8>, AllocError> {
    let mut out = Vec::new(alloc);
    put_refusal(&mut out, refusal)?;
    Ok(out)
}

// What is told of the problem of two files for an X with these names.
fn told_of(
    alloc: Global,
    mode: Mode,
    f: File,
    s: File,
    ins: &NameList,
    outs: &NameList,
) -> Result<Vec<u8>, AllocError>
    requires f_sound { IsSoundFile (problems.file_of f) }
    requires s_sound { IsSoundFile (problems.file_of s) }
    requires some { 0 < length ins.now }
{
    match Problem::build(alloc, mode, f, s, ins, outs) {
        Ok(problem) => problem_text(alloc, &problem),
        Err(refusal) => refusal_text(alloc, &refusal),
    }
}

fn told(
    alloc: Global,
    mode: Mode,
    (f, s): (&str, &str),
    (ins, outs): (&str, &str),
) -> Result<Vec<u8>, Fail> {
    let ins = list_of(alloc, ins)?;
    let outs = list_of(alloc, outs)?;
    let f = file_of(alloc, f)?;
    let s = file_of(alloc, s)?;
    if ins.len() == 0 {
        return Err(Fail::new("no inputs"));
    }
    Ok(told_of(alloc, mode, f, s, &ins, &outs)?)
}

// Two texts, the names of X's inputs and outputs, and what is told of their problem.
type Case<'a> = (Mode, (&'a str, &'a str), (&'a str, &'a str), &'a str);

const PROBLEMS: &[Case<'static>] = &[
    (
        Mode::Sync,
        (F, S),
        ("u", "v"),
        "network i v u o; network o i q; sync i:0,1, v:a,b,c, u:0,1, o:0,1, q:0,1,; x u:0,1, v:a,b,c,; inputs 1",
    ),
    (
        Mode::Sync,
        (ONE, S),
        ("q e", ""),
        "automaton e; network o i q; sync e:x,CS,z, o:0,1, i:0,1, q:0,1,; x q:0,1, e:x,CS,z,; inputs 2",
    ),
    (
        Mode::Parallel,
        (ONE, OTHER),
        ("w CS", "x"),
        "automaton e; automaton d; parallel act:x,CS,z,w,; x act:w,CS,x,; inputs 2",
    ),
    // the files before the names, by F's order
    (Mode::Sync, (F, V_OF_TWO), ("zz", "u"), "another domain v"),
    (Mode::Sync, (F, I_OF_THREE), ("u", "v"), "another domain i"),
    // a list from its first name on
    (Mode::Sync, (F, S), ("zz u u", "v"), "unknown zz"),
    (Mode::Sync, (F, S), ("u u zz", "v"), "repeated u"),
    (Mode::Sync, (F, S), ("u", "o o u"), "repeated o"),
    (Mode::Sync, (F, S), ("u", "v u v"), "in both u"),
    // the inputs before the outputs
    (Mode::Sync, (F, S), ("u u", "zz"), "repeated u"),
    (Mode::Sync, (F, S), ("u v", "u zz"), "in both u"),
    // a name that no file has is unknown, also where it would be reserved
    (Mode::Sync, (F, RESERVED), ("u CS", "zz"), "reserved CS"),
    (Mode::Sync, (F, RESERVED), ("u NS", "CS"), "unknown NS"),
    (Mode::Sync, (F, RESERVED), ("u", "CS CS"), "reserved CS"),
    (Mode::Parallel, (ONE, OTHER), ("w y", "x"), "unknown y"),
    (Mode::Parallel, (ONE, OTHER), ("e", "x"), "unknown e"),
    (Mode::Parallel, (ONE, OTHER), ("w CS w", "x"), "repeated w"),
    (Mode::Parallel, (ONE, OTHER), ("w CS", "x CS"), "in both CS"),
    // parallel mode wants one variable of each file
    (
        Mode::Parallel,
        (F, S),
        ("zz", "zz"),
        "not one variable in F",
    ),
    (
        Mode::Parallel,
        (TWO, S),
        ("zz", "zz"),
        "not one variable in F",
    ),
    (
        Mode::Parallel,
        (ONE, S),
        ("zz", "zz"),
        "not one variable in S",
    ),
    (
        Mode::Parallel,
        (ONE, TWO),
        ("zz", "zz"),
        "not one variable in S",
    ),
];

#[test]
fn texts_have_their_problems(rt: HostRuntime) -> Result<(), Fail> {
    for &(mode, files, names, wanted) in PROBLEMS {
        let found = told(rt.alloc(), mode, files, names)?;
        assert!(rt; found.as_slice() == wanted.as_bytes(), "{wanted}");
    }
    Ok(())
}
