//! What users of these libraries wait for, at a size that takes seconds: bench/workloads.txt runs this program, a job a
//! line, and bench/run times it.
//!
//! Its words are a job, a seed and an amount, `node 7 1000`, and standard input is the text of a dictionary. The job
//! makes its own inputs by the seed, hands each to the libraries once, and the program prints a digest of all that came
//! of them. The job `each` runs the first six of them; `check` runs by itself.
#![tactic(auto)]

mod awkward;
mod base_messages;
mod captures;
mod chance;
mod check;
mod codec;
mod decimal;
mod dictionaries;
mod digest;
mod draft;
mod jobs;
mod judging;
mod live;
mod messages;
mod node;
mod outcomes;
mod replay;
mod thresholds;
mod view;
mod wide;

use anyhow::{Context, Result, bail};
use std::env;
use std::io::Read;
use std::rt::Env;

/// The words of the command line.
#[derive(Drop)]
struct Words {
    job: String,
    seed: u32,
    amount: u32,
}

fn main(rt: HostRuntime) -> Result<()> {
    let words = read_words(&rt)?;
    let mut text = Vec::new(rt.alloc());
    let _length = rt.stdin().read_to_end(&mut text)?;
    let digest = jobs::run(
        rt.alloc(),
        text.as_slice(),
        words.job.as_str(),
        words.seed,
        words.amount,
    )?;
    println!(rt;
        "{} {} {}: {digest:016x}",
        words.job, words.seed, words.amount
    )?;
    Ok(())
}

fn read_words(rt: &(impl Env + AllocGlobal)) -> Result<Words> {
    let mut given = env::args(rt)?;
    let _program = given.next();
    let (Some(job), Some(seed), Some(amount), None) = (
        given.next(),
        given.next(),
        given.next(),
        given.next(),
    ) else {
        bail!("the words are a job, a seed and an amount");
    };
    let seed = seed.parse::<u32>().context("the seed")?;
    let amount = amount.parse::<u32>().context("the amount")?;
    Ok(Words { job, seed, amount })
}
