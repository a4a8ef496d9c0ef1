#![tactic(auto)]

mod playing;
mod totals;

use crate::playing::play;
use crate::totals::Totals;
use anyhow::Context;
use std::env::{self, Env};
use trust::threshold::Threshold;

// How many rounds the first argument asks for, or one.
fn asked(rt: &(impl Env + Alloc)) -> anyhow::Result<u64> {
    let asked = env::args(rt)?
        .nth(1)
        .and_then(|word| word.as_str().parse().ok());
    Ok(asked.unwrap_or(1))
}

// Plays the rounds and prints what came of them. It is there to be timed.
fn main(rt: HostRuntime) -> anyhow::Result<()> {
    let count = asked(&rt)?;
    let rule = Threshold::new(16, 5, 11)
        .ok()
        .context("there is no such rule")?;
    let totals = (0..count).fold(Totals::default(), |totals, number| {
        play(&rule, number, totals)
    });
    rt.print(totals)?;
    Ok(())
}
