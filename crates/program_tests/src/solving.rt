//! Worked problems and faults, from words and bytes to bytes.

use crate::runs::{AMPLE, Job, ended_over, ended_with, files_with, words_of};
use crate::texts::{
    ANY_ROWS, BLOCKED_ROWS, EQUAL_ROWS, EVERY_ANSWER, EXTERNAL_ANSWER, LATE, TRI_ANSWER,
    TWO_STATES, X_OF_TWO,
};
use balm_top::{Args, Status, run};
use io_core::{HonestShelf, HonestSink, MemShelf};
use std::alloc::{AllocError, Global};
use std::test::Fail;

const fn job(f: &'static str, s: &'static str, ins: &'static str, outs: &'static str) -> Job {
    Job { f, s, ins, outs }
}

#[test]
fn each_pair_has_its_answer(rt: HostRuntime) -> Result<(), Fail> {
    let equal: &[&str] = &[X_OF_TWO, TWO_STATES, "s0 1\ns1 0\n", EQUAL_ROWS];
    let nothing: &[&str] = &[X_OF_TWO, TWO_STATES, "s0 0\ns1 0\n", EQUAL_ROWS];
    let anything: &[&str] = &[X_OF_TWO, TWO_STATES, "s0 1\ns1 1\n", ANY_ROWS];
    // Where F blocks every word is safe, and by u = 0 the first letter already shows o.
    let blocked: &[&str] = &[X_OF_TWO, TWO_STATES, "s0 1\ns1 1\n", BLOCKED_ROWS];
    for (f, s, ins, status, out) in [
        ("wire.mv", "copy.mv", "u", 0, equal),
        ("wire.aut", "copy.mv", "u", 0, equal),
        ("wire.mv", "twice.aut", "u", 0, equal),
        ("never.aut", "copy.mv", "u", 0, anything),
        ("blocks.aut", "copy.mv", "u", 0, blocked),
        ("wire.mv", "none.aut", "u", 1, nothing),
        ("wire.mv", "every.mv", "u", 0, &[X_OF_TWO, EVERY_ANSWER]),
        ("tri.mv", "tris.mv", "u", 0, &[TRI_ANSWER]),
        ("wire.mv", "copy.mv", "u,i", 0, &[EXTERNAL_ANSWER]),
    ] {
        let ended = ended_with(rt.alloc(), &job(f, s, ins, "v"), "", b"")?;
        assert!(rt; ended.is(status, out, ""), "{f} {s} {ins}");
    }
    Ok(())
}

#[test]
fn each_refusal_has_its_line(rt: HostRuntime) -> Result<(), Fail> {
    let alloc = rt.alloc();
    for (job, status, line) in [
        (
            job("short.mv", "copy.mv", "u", "v"),
            3,
            "balm: short.mv:5: RowWidth\n",
        ),
        (
            job("value.mv", "copy.mv", "u", "v"),
            3,
            "balm: value.mv:5: UnknownValue\n",
        ),
        (
            job("double.mv", "copy.mv", "u", "v"),
            3,
            "balm: double.mv:6: DrivenTwice\n",
        ),
        (
            job("e.mv", "copy.mv", "u", "v"),
            3,
            "balm: e.mv:1: NoModel\n",
        ),
        (
            job("wire.mv", "value.mv", "q", "v"),
            3,
            "balm: value.mv:5: UnknownValue\n",
        ),
        (
            job("short.mv", "value.mv", "u", "v"),
            3,
            "balm: short.mv:5: RowWidth\n",
        ),
        (
            job("short.mv", "absent.mv", "u", "v"),
            3,
            "balm: short.mv:5: RowWidth\n",
        ),
        (
            job("tri.mv", "copy.mv", "q", "v"),
            3,
            "balm: names: DomainDiffers i\n",
        ),
        (
            job("wire.mv", "copy.mv", "q", "v"),
            3,
            "balm: names: UnknownName q\n",
        ),
        (
            job("wire.mv", "copy.mv", "u,u", "v"),
            3,
            "balm: names: RepeatedName u\n",
        ),
        (
            job("wire.mv", "copy.mv", "u", "v,u"),
            3,
            "balm: names: InBoth u\n",
        ),
        (
            job("reserved.mv", "copy.mv", "CS", "v"),
            3,
            "balm: names: ReservedName CS\n",
        ),
        (
            job("wire.mv", "copy.mv", "Acc", "v"),
            3,
            "balm: names: UnknownName Acc\n",
        ),
        (
            job("late.mv", "copy.mv", "u", "l"),
            3,
            "balm: names: UnknownName l\n",
        ),
        (job("wire.mv", "copy.mv", "", "v"), 2, "balm: usage\n"),
        (
            job("absent.mv", "copy.mv", "u", "v"),
            6,
            "balm: cannot read absent.mv\n",
        ),
    ] {
        let mut shelf = MemShelf::new(alloc, files_with(alloc, "", b"")?, Vec::new(alloc));
        let ended = ended_over(alloc, &job, &mut shelf, AMPLE)?;
        assert!(rt; ended.is(status, &[], line), "{line}");
    }
    Ok(())
}

// A network with so many signals behind one another, each a copy of the one before.
fn chain(alloc: Global, signals: u16) -> Result<String, AllocError> {
    let mut text = String::from_str(alloc, ".model wire\n.inputs i v\n.outputs u o\n")?;
    text.push_str(".table i -> n0\n- =i\n")?;
    for k in 1..signals {
        let before = k - 1;
        text.push_str(format!(in alloc; ".table n{before} -> n{k}\n- =n{before}\n")?.as_str())?;
    }
    let last = signals.saturating_sub(1);
    text.push_str(format!(in alloc; ".table n{last} -> u\n- =n{last}\n")?.as_str())?;
    text.push_str(".table v -> o\n- =v\n")?;
    Ok(text)
}

// The chain has 2,000 bits and those of its letters.
#[test]
fn the_bits_are_tested_last(rt: HostRuntime) -> Result<(), Fail> {
    let chain = chain(rt.alloc(), 2_000)?;
    for (ins, status, line) in [
        ("u", 4, "balm: limit Bits\n"),
        ("q", 3, "balm: names: UnknownName q\n"),
    ] {
        let job = job("chain.mv", "copy.mv", ins, "v");
        let ended = ended_with(rt.alloc(), &job, "chain.mv", chain.as_bytes())?;
        assert!(rt; ended.is(status, &[], line), "{ins}");
    }
    Ok(())
}

// A front of a network is a network too, or has a fault; nothing else comes of it.
#[test]
fn each_front_of_a_network_is_read_or_refused(rt: HostRuntime) -> Result<(), Fail> {
    let job = job("front.mv", "copy.mv", "u", "v");
    for (len, _) in LATE.as_bytes().iter().enumerate() {
        let ended = ended_with(rt.alloc(), &job, "front.mv", &LATE.as_bytes()[..len])?;
        assert_eq!(rt; ended.status == 0, !ended.out.is_empty(), "{len}");
        assert_eq!(rt; ended.status == 3, !ended.err.is_empty(), "{len}");
    }
    Ok(())
}

#[test]
fn faults_of_the_outside_are_told(rt: HostRuntime) -> Result<(), Fail> {
    let alloc = rt.alloc();
    let job = job("wire.mv", "copy.mv", "u", "v");
    let mut failing = MemShelf::new(alloc, files_with(alloc, "", b"")?, [1].to_vec(alloc)?);
    let unread = ended_over(alloc, &job, &mut failing, AMPLE)?;
    assert!(rt; unread.is(6, &[], "balm: cannot read copy.mv\n"));

    let mut shelf = HonestShelf::new(files_with(alloc, "", b"")?);
    let cut = ended_over(alloc, &job, &mut shelf, 10)?;
    assert!(rt; cut.is(7, &[".model sol"], "balm: cannot write\n"));

    let whole = ended_over(alloc, &job, &mut shelf, AMPLE)?;
    assert!(rt; whole.is(0, &[X_OF_TWO, TWO_STATES, "s0 1\ns1 0\n", EQUAL_ROWS], ""));
    Ok(())
}

#[test]
fn words_are_kept_in_order(rt: HostRuntime) -> Result<(), Fail> {
    let words = words_of(rt.alloc(), &job("f", "s", "u", "v"))?;
    assert_eq!(rt; words.len(), 7);
    assert_eq!(rt; words.word(1), Some("f"));
    assert_eq!(rt; words.word(7), None);
    Ok(())
}

#[test]
fn words_without_a_job_are_told(rt: HostRuntime) -> Result<(), Fail> {
    let alloc = rt.alloc();
    let mut shelf = HonestShelf::new(Vec::new(alloc));
    let mut out = HonestSink::new(alloc);
    let mut err = HonestSink::new(alloc);
    let status = run(alloc, &Args::new(alloc), &mut shelf, &mut out, &mut err);
    assert_eq!(rt; status, Status::Usage);
    assert!(rt; out.taken().is_empty());
    assert!(rt; err.taken() == b"balm: usage\n".as_slice());
    Ok(())
}
