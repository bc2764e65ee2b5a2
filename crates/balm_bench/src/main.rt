//! The program that shows what each layer costs: `balm_bench LAYER SIZE ..` does the work of each layer at its size,
//! checks what it counted, and prints the counts.
#![tactic(auto)]

mod layer;

ghost use Rattle.std.specs.Prelude.{◌<◌, vec_len, IfOk};

use anyhow::{Context, Result, bail};
use bench_automata::{count_subsets, count_targets};
use bench_diagrams::{count_blocked, count_chain, count_drawn, count_interleaved, count_nodes};
use bench_texts::{
    count_collisions, count_counts, count_domains, count_lines, count_names, count_rows,
    count_valued,
};
use layer::{Job, Layer};
use std::alloc::Global;
use std::env;
use std::rt::Env;

/// What is told of words that name no jobs.
const USAGE: &str =
    "usage: balm_bench LAYER SIZE .. (a layer is lines, names, nodes, interleaved, blocked, rows, domains, collisions, counts, valued, chain, drawn, subsets or targets)";

fn main(rt: HostRuntime) -> Result<()> {
    let words = words(&rt, rt.alloc())?;
    let jobs = jobs(rt.alloc(), words.as_slice())?;
    for job in &jobs {
        run(&rt, rt.alloc(), job).context(format_args!("{} {}", job.layer, job.size))?;
    }
    Ok(())
}

/// The words after the program's name.
fn words<R: Env + AllocGlobal>(rt: &R, alloc: Global) -> Result<Vec<String>> {
    let mut words = Vec::new(alloc);
    for word in env::args(rt)?.skip(1) {
        words.push(word)?;
    }
    Ok(words)
}

/// The jobs that the words name, a layer and a size each.
fn jobs(alloc: Global, words: &[String]) -> Result<Vec<Job>>
    ensures { IfOk result (λ jobs. 0 < vec_len jobs) }
{
    let mut jobs = Vec::new(alloc);
    for pair in words.chunks(2) {
        let job = match pair {
            [layer, size] => Job::named(layer.as_str(), size.as_str()),
            _ => None,
        };
        let Some(job) = job else {
            bail!("{USAGE}");
        };
        jobs.push(job)?;
    }
    if jobs.is_empty() {
        bail!("{USAGE}");
    }
    Ok(jobs)
}

/// Does the work of a job and prints what was counted.
fn run(rt: &impl Print, alloc: Global, job: &Job) -> Result<()> {
    let size = job.size;
    match job.layer {
        Layer::Lines => println!(rt; "lines {size}: {}", count_lines(alloc, size)?)?,
        Layer::Names => println!(rt; "names {size}: {}", count_names(alloc, size)?)?,
        Layer::Nodes => println!(rt; "nodes {size}: {}", count_nodes(alloc, size)?)?,
        Layer::Interleaved => println!(rt;
            "interleaved {size}: {}",
            count_interleaved(alloc, size)?
        )?,
        Layer::Blocked => println!(rt; "blocked {size}: {}", count_blocked(alloc, size)?)?,
        Layer::Rows => println!(rt; "rows {size}: {}", count_rows(alloc, size)?)?,
        Layer::Domains => println!(rt; "domains {size}: {}", count_domains(alloc, size)?)?,
        Layer::Collisions => println!(rt; "collisions {size}: {}", count_collisions(alloc, size)?)?,
        Layer::Counts => println!(rt; "counts {size}: {}", count_counts(alloc, size)?)?,
        Layer::Valued => println!(rt; "valued {size}: {}", count_valued(alloc, size)?)?,
        Layer::Chain => println!(rt; "chain {size}: {}", count_chain(alloc, size)?)?,
        Layer::Drawn => println!(rt; "drawn {size}: {}", count_drawn(alloc, size)?)?,
        Layer::Subsets => println!(rt; "subsets {size}: {}", count_subsets(alloc, size)?)?,
        Layer::Targets => println!(rt; "targets {size}: {}", count_targets(alloc, size)?)?,
    }
    Ok(())
}
