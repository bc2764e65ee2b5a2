//! Reads a job from the words.

ghost use Rattle.std.specs.Prelude.{◌≡◌, ◌==◌, ℕ, List, length, map, IfOk, IfSome, IfNone};
ghost use Rattle.std.specs.List.{slice_split, list_any};
ghost use Rattle.job_words.specs.Jobs.{IsNameList, IsJob, HasNoJob, job_of};

use crate::args::Args;
use std::alloc::{AllocError, Global};

/// A job of `solve`: the names of the two files, and those of X's inputs and outputs.
#[derive(Debug, Drop)]
pub struct Request<'a> {
    pub f: &'a str,
    pub s: &'a str,
    pub ins: Vec<&'a str>,
    pub outs: Vec<&'a str>,
}

/// The job that the words name, if they name one.
pub fn request_of<'a>(alloc: Global, words: &'a Args) -> Result<Option<Request<'a>>, AllocError>
    ensures some { IfOk result (λ found. IfSome found (λ request. IsJob words.now (job_of request))) }
    ensures none { IfOk result (λ found. IfNone found (HasNoJob words.now)) }
{
    let Some(form) = words.solve_form() else {
        return Ok(None);
    };
    let Some(ins) = names_in(alloc, form.ins)? else {
        return Ok(None);
    };
    let Some(outs) = names_in(alloc, form.outs)? else {
        return Ok(None);
    };
    Ok(Some(Request {
        f: form.f,
        s: form.s,
        ins,
        outs,
    }))
}

/// The names in a list that is separated by commas, if none of them is empty.
fn names_in<'a>(alloc: Global, list: &'a str) -> Result<Option<Vec<&'a str>>, AllocError>
    ensures some { IfOk result (λ found. IfSome found (λ names. IsNameList list.now (map (λ name. name.now) names.items))) }
    ensures none { IfOk result (λ found. IfNone found ((names : List (List ℕ)) → IsNameList list.now names → ⊥)) }
{
    let names = parts_of(alloc, list)?;
    if has_empty(&names) {
        return Ok(None);
    }
    Ok(Some(names))
}

fn parts_of<'a>(alloc: Global, list: &'a str) -> Result<Vec<&'a str>, AllocError>
    ensures { IfOk result (λ names. map (λ name. name.now) names.items ≡ slice_split (λ b. b == 44) list.now) }
{
    list.split(',').collect(alloc)
}

fn has_empty(names: &[&str]) -> bool
    ensures { result ≡ list_any (λ name. length name == 0) (map (λ name. name.now) names.now) }
{
    for name in names {
        if name.is_empty() {
            return true;
        }
    }
    false
}
