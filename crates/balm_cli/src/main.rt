//! The program: it makes the real shelf and the real sinks, and calls `run`.
#![tactic(auto)]

mod disk_shelf;
mod stream_sink;

use balm_top::{Args, Status, run};
use disk_shelf::DiskShelf;
use std::alloc::Global;
use std::env;
use std::io::{self, ErrorKind, Stderr, Stdout};
use std::process::ExitCode;
use std::rt::Env;
use stream_sink::StreamSink;

/// Standard output as a sink.
type OutSink = StreamSink<Stdout>;

/// Standard error as a sink.
type ErrSink = StreamSink<Stderr>;

fn main(rt: HostRuntime) -> ExitCode {
    let mut err: ErrSink = StreamSink::new(rt.stderr());
    let status = match words(&rt, rt.alloc()) {
        Ok(words) => {
            let mut shelf = DiskShelf::new(&rt);
            let mut out: OutSink = StreamSink::new(rt.stdout());
            run(rt.alloc(), &words, &mut shelf, &mut out, &mut err)
        }
        Err(fault) => refuse_words(&fault, &mut err),
    };
    ExitCode::from(status.code())
}

/// The words after the program's name.
fn words<R: Env + AllocGlobal>(rt: &R, alloc: Global) -> io::Result<Args> {
    let mut words = Args::new(alloc);
    for word in env::args(rt)?.skip(1) {
        words.push(word.as_str())?;
    }
    Ok(words)
}

/// Words that can't be had as text name no job.
fn refuse_words(fault: &io::Error, err: &mut ErrSink) -> Status {
    if fault.kind() == ErrorKind::OutOfMemory {
        stream_sink::tell(err, b"balm: out of memory\n");
        Status::Memory
    } else {
        stream_sink::tell(err, b"balm: usage\n");
        Status::Usage
    }
}
