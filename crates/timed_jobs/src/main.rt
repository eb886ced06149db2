//! The jobs that people wait for, on inputs that follow from a seed: `timed_jobs JOB SIZE SEED` does one of them
//! through the calls of the libraries, and prints a digest of all that it leaves. `bench/` times them.
#![tactic(auto)]

mod answers;
mod at_once;
mod awkward;
mod catalogue;
mod chance;
mod checks;
mod crowds;
mod digest;
mod digits;
mod faulty;
mod form;
mod nights;
mod refused;
mod reports;
mod sheet;
mod tables;
mod titles;
mod verified;
mod verifying;

use crate::chance::Chance;
use crate::digest::Digest;
use cwr_field::Memory;
use std::env;
use std::process::ExitCode;
use std::rt::Env;
use std::sync::Wait;
use std::thread::Threads;

fn main(rt: HostRuntime) -> ExitCode {
    match words_of(&rt) {
        Some((job, size, seed)) => run_jobs(&rt, job.as_str(), size, seed),
        None => ExitCode::FAILURE,
    }
}

/// The words of the command line: a job, its size, and a seed.
fn words_of<R: Env + AllocGlobal>(rt: &R) -> Option<(String, u32, u64)> {
    let mut words = env::args(rt).ok()?;
    let _ = words.next()?;
    let job = words.next()?;
    let size = words.next()?;
    let seed = words.next()?;
    Some((
        job,
        size.as_str().parse().ok()?,
        seed.as_str().parse().ok()?,
    ))
}

/// The jobs.
const JOBS: [&str; 7] = [
    "nights",
    "at-once",
    "checks",
    "reports",
    "verifying",
    "tables",
    "awkward",
];

/// Does a job, or each of them for `all`, and prints the digest.
fn run_jobs<R: AllocGlobal + Print + Eprint + Threads + Wait + Sync>(
    rt: &R,
    job: &str,
    size: u32,
    seed: u64,
) -> ExitCode {
    let mut some = false;
    for name in JOBS {
        if job == name || job == "all" {
            some = true;
            if !run_and_print(rt, name, size, seed) {
                return ExitCode::FAILURE;
            }
        }
    }
    if some {
        ExitCode::SUCCESS
    } else {
        ExitCode::FAILURE
    }
}

/// Does the job of this name, and returns whether its digest was printed.
fn run_and_print<R: AllocGlobal + Print + Eprint + Threads + Wait + Sync>(
    rt: &R,
    name: &str,
    size: u32,
    seed: u64,
) -> bool {
    match done(rt, name, size, &mut Chance::new(seed)) {
        Ok(digest) => println!(rt; "{name} {:016x}", digest.sum()).is_ok(),
        Err(Memory) => {
            let _ = eprintln!(rt; "{name}: stopped");
            false
        }
    }
}

/// Does the job of this name.
fn done<R: AllocGlobal + Threads + Wait + Sync>(
    rt: &R,
    name: &str,
    size: u32,
    chance: &mut Chance,
) -> Result<Digest, Memory> {
    let alloc = rt.alloc();
    match name {
        "nights" => nights::nights(alloc, size, chance),
        "at-once" => at_once::at_once(rt, alloc, size, chance),
        "checks" => checks::checks(alloc, size, chance),
        "reports" => reports::reports(alloc, size, chance),
        "verifying" => verifying::verifying(alloc, size, chance),
        "tables" => tables::tables(alloc, size, chance),
        _ => awkward::awkward(alloc, size, chance),
    }
}
