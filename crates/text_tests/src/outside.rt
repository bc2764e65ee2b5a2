//! The files and sinks in memory with ample memory, where they fail.

use io_core::{
    HonestShelf, HonestSink, LoadFault, MemShelf, MemSink, Shelf, Sink, SinkFault, WriteFault,
    write_all, write_pieces,
};
use std::alloc::{AllocError, Global};
use std::test::Fail;

#[test]
fn an_honest_sink_takes_all(rt: HostRuntime) {
    let mut sink = HonestSink::new(rt.alloc());
    assert!(rt; sink.put(b"abc") == Ok(3));
    assert!(rt; write_all(&mut sink, b"def").is_ok());
    assert!(rt; write_pieces(&mut sink, &[b"cannot read ", b"x", b"\n"]).is_ok());
    assert!(rt; sink.taken() == b"abcdefcannot read x\n".as_slice());
}

#[test]
fn a_sink_with_room_takes_a_front(rt: HostRuntime) {
    let mut sink = MemSink::new(rt.alloc(), Vec::new(rt.alloc()), 10);
    assert!(rt; write_all(&mut sink, b"abc").is_ok());
    assert!(rt; write_pieces(&mut sink, &[b"de", b"fghij", b"klm"]) == Err(WriteFault::Failed));
    assert!(rt; sink.taken() == b"abcdefghij".as_slice());
    assert!(rt; write_all(&mut sink, b"n") == Err(WriteFault::Failed));
}

#[test]
fn a_sink_fails_in_its_failing_call(rt: HostRuntime) -> Result<(), Fail> {
    let mut sink = MemSink::new(rt.alloc(), vec![in rt.alloc(); 1]?, 10);
    assert!(rt; sink.put(b"a") == Ok(1));
    assert!(rt; sink.put(b"b") == Err(SinkFault::Failed));
    assert!(rt; sink.put(b"c") == Ok(1));
    assert!(rt; sink.taken() == b"ac".as_slice());
    Ok(())
}

// A name with its text.
fn file(alloc: Global, name: &str, text: &str) -> Result<(String, Vec<u8>), AllocError> {
    Ok((
        String::from_str(alloc, name)?,
        text.as_bytes().to_vec(alloc)?,
    ))
}

// Two files of one name, and one of another.
fn three_files(alloc: Global) -> Result<Vec<(String, Vec<u8>)>, AllocError> {
    let first = file(alloc, "f.aut", "first")?;
    let second = file(alloc, "f.aut", "second")?;
    let other = file(alloc, "s.aut", "other")?;
    Ok(vec![in alloc; first, second, other]?)
}

// Whether the shelf gives this text, or none where it fails.
fn gives(
    shelf: &mut impl Shelf,
    alloc: Global,
    name: &str,
    max: usize,
    wanted: Option<&str>,
) -> bool {
    match (shelf.load(alloc, name, max), wanted) {
        (Ok(found), Some(text)) => found.as_slice() == text.as_bytes(),
        (Err(fault), None) => fault == LoadFault::Failed,
        _ => false,
    }
}

// Names, how many bytes are asked for, and what is given.
const GIVEN: &[(&str, usize, Option<&str>)] = &[
    ("f.aut", 9, Some("first")),
    ("f.aut", 2, Some("fi")),
    ("s.aut", 9, Some("other")),
    ("x.aut", 9, Some("")),
];

#[test]
fn an_honest_shelf_gives_every_name(rt: HostRuntime) -> Result<(), Fail> {
    let mut shelf = HonestShelf::new(three_files(rt.alloc())?);
    for &(name, max, wanted) in GIVEN {
        assert!(rt; gives(&mut shelf, rt.alloc(), name, max, wanted), "{name}");
    }
    Ok(())
}

const LOADED: &[(&str, usize, Option<&str>)] = &[
    ("f.aut", 9, Some("first")),
    ("f.aut", 9, None),
    ("s.aut", 3, Some("oth")),
    ("x.aut", 9, None),
];

#[test]
fn a_shelf_fails_in_its_failing_load(rt: HostRuntime) -> Result<(), Fail> {
    let failing = vec![in rt.alloc(); 1]?;
    let mut shelf = MemShelf::new(rt.alloc(), three_files(rt.alloc())?, failing);
    for &(name, max, wanted) in LOADED {
        assert!(rt; gives(&mut shelf, rt.alloc(), name, max, wanted), "{name}");
    }
    Ok(())
}
