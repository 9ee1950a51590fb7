//! Jobs over many paths, which are timed: `typed_path_jobs JOB COUNT SEED` does a job so many times
//! over inputs drawn from the seed, and prints a digest of all its results. `all` does each job.
#![tactic(auto)]

mod awkward;
mod digest;
mod keys;
mod lines;
mod manifest;
mod random;
mod rules;
mod texts;
mod tree;
mod unpack;

use anyhow::{Context, Result, bail};
use digest::Digest;
use random::Random;
use std::alloc::{AllocError, Global};
use std::env;

/// A job over inputs that are drawn.
#[derive(Clone, Copy)]
enum Job {
    Unpack,
    Manifest,
    Keys,
    Rules,
    Lines,
    Awkward,
}

/// The jobs by name.
const JOBS: &[(&str, Job)] = &[
    ("unpack", Job::Unpack),
    ("manifest", Job::Manifest),
    ("keys", Job::Keys),
    ("rules", Job::Rules),
    ("lines", Job::Lines),
    ("awkward", Job::Awkward),
];

/// Does a job, and returns the digest of its results.
fn done(alloc: Global, job: Job, count: u64, seed: u64) -> Result<u64, AllocError> {
    let mut random = Random::new(seed);
    let mut digest = Digest::new();
    match job {
        Job::Unpack => unpack::unpack(alloc, count, &mut random, &mut digest)?,
        Job::Manifest => manifest::manifest(alloc, count, &mut random, &mut digest)?,
        Job::Keys => keys::keys(alloc, count, &mut random, &mut digest)?,
        Job::Rules => rules::ask_rules(alloc, count, &mut random, &mut digest)?,
        Job::Lines => lines::answer(alloc, count, &mut random, &mut digest)?,
        Job::Awkward => awkward::awkward(alloc, count, &mut random, &mut digest)?,
    }
    Ok(digest.number())
}

/// Does the jobs that a name stands for, and prints a line for each.
fn run(rt: &(impl Print + AllocGlobal), name: &str, count: u64, seed: u64) -> Result<()> {
    let mut known = false;
    for (job_name, job) in JOBS {
        if name == *job_name || name == "all" {
            known = true;
            let digest = done(rt.alloc(), *job, count, seed)?;
            println!(rt; "{job_name} {digest:016x}")?;
        }
    }
    if !known {
        bail!("no job of this name");
    }
    Ok(())
}

fn main(rt: HostRuntime) -> Result<()> {
    let mut words = env::args(&rt)?.skip(1);
    let name = words.next().context("no job")?;
    let count = words.next().context("no count")?.parse::<u64>()?;
    let seed = words.next().context("no seed")?.parse::<u64>()?;
    run(&rt, name.as_str(), count, seed)
}
