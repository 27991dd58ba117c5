//! The jobs by name.
use crate::chance::Chance;
use crate::digest::Digest;
use crate::{check, codec, dictionaries, live, node, replay, view};
use anyhow::{Result, bail};
use std::alloc::Global;

/// The jobs that `each` runs, in this order. The job `check` is none of them: what `each` prints is older than it, and
/// stays the same.
const JOBS: [&str; 6] = ["node", "codec", "view", "replay", "dictionary", "live"];

/// Runs the job of this name, and answers the digest of its results.
///
/// `text` is the text of a dictionary over the base one.
pub fn run(alloc: Global, text: &[u8], name: &str, seed: u32, amount: u32) -> Result<u64> {
    let mut digest = Digest::new();
    if name == "each" {
        for job in JOBS {
            run_one(alloc, text, job, seed, amount, &mut digest)?;
        }
    } else {
        run_one(alloc, text, name, seed, amount, &mut digest)?;
    }
    Ok(digest.value())
}

fn run_one(
    alloc: Global,
    text: &[u8],
    name: &str,
    seed: u32,
    amount: u32,
    digest: &mut Digest,
) -> Result<()> {
    let mut chance = Chance::new(seed);
    match name {
        "node" => node::run(alloc, &mut chance, amount, digest),
        "codec" => codec::run(alloc, text, &mut chance, amount, digest),
        "view" => view::run(alloc, text, &mut chance, amount, digest),
        "replay" => replay::run(alloc, &mut chance, amount, digest),
        "dictionary" => dictionaries::run(alloc, text, &mut chance, amount, digest),
        "live" => live::run(alloc, &mut chance, amount, digest),
        "check" => check::run(alloc, text, &mut chance, amount, digest),
        _ => bail!("there is no such job"),
    }
}
