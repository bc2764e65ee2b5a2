//! Runs of the program over files in memory.

use crate::texts::FILES;
use balm_top::{Args, run};
use io_core::{HonestShelf, MemSink, Shelf};
use std::alloc::{AllocError, Global};

/// Room for every answer of these tests.
pub const AMPLE: usize = 10_000;

/// The open words of a job of `solve`.
#[derive(Clone, Copy)]
pub struct Job {
    pub f: &'static str,
    pub s: &'static str,
    pub ins: &'static str,
    pub outs: &'static str,
}

/// How a run ended: its status, and what `out` and `err` took.
#[derive(Drop)]
pub struct Ended {
    pub status: u8,
    pub out: Vec<u8>,
    pub err: Vec<u8>,
}

impl Ended {
    /// Whether it ended so, with these pieces on `out`, one after another, and this line on `err`.
    pub fn is(&self, status: u8, out: &[&str], err: &str) -> bool {
        self.status == status && is_joined(&self.out, out) && self.err.as_slice() == err.as_bytes()
    }
}

fn is_joined(text: &[u8], pieces: &[&str]) -> bool {
    let mut rest = text;
    for piece in pieces {
        match rest.strip_prefix(piece.as_bytes()) {
            Some(after) => rest = after,
            None => return false,
        }
    }
    rest.is_empty()
}

/// The words of the job.
pub fn words_of(alloc: Global, job: &Job) -> Result<Args, AllocError> {
    let mut words = Args::new(alloc);
    for word in ["solve", job.f, job.s, "--in", job.ins, "--out", job.outs] {
        words.push(word)?;
    }
    Ok(words)
}

/// All files, and one more.
pub fn files_with(
    alloc: Global,
    name: &str,
    text: &[u8],
) -> Result<Vec<(String, Vec<u8>)>, AllocError> {
    let mut files = Vec::new(alloc);
    for (name, text) in FILES {
        files.push(file(alloc, name, text.as_bytes())?)?;
    }
    files.push(file(alloc, name, text)?)?;
    Ok(files)
}

fn file(alloc: Global, name: &str, text: &[u8]) -> Result<(String, Vec<u8>), AllocError> {
    Ok((String::from_str(alloc, name)?, text.to_vec(alloc)?))
}

/// The end of a run over a shelf, with so much room on `out`.
pub fn ended_over<H: Shelf>(
    alloc: Global,
    job: &Job,
    shelf: &mut H,
    room: usize,
) -> Result<Ended, AllocError> {
    let words = words_of(alloc, job)?;
    let mut out = MemSink::new(alloc, Vec::new(alloc), room);
    let mut err = MemSink::new(alloc, Vec::new(alloc), AMPLE);
    let status = run(alloc, &words, shelf, &mut out, &mut err).code();
    let out = out.taken().to_vec(alloc)?;
    let err = err.taken().to_vec(alloc)?;
    Ok(Ended { status, out, err })
}

/// The end of a run over all files and one more.
pub fn ended_with(alloc: Global, job: &Job, name: &str, text: &[u8]) -> Result<Ended, AllocError> {
    let mut shelf = HonestShelf::new(files_with(alloc, name, text)?);
    ended_over(alloc, job, &mut shelf, AMPLE)
}
