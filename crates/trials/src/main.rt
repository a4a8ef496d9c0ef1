#![tactic(auto)]

mod calls;
mod line;
mod playing;
mod rules;
mod said;
mod score;
mod values;
mod words;

use crate::line::lines_of;
use crate::playing::play;
use anyhow::Context;
use std::io::Read;

// Reads a trial file from standard input, plays it, and prints what differed and how many answers there were.
fn main(rt: HostRuntime) -> anyhow::Result<()> {
    let mut bytes = Vec::new(rt.alloc());
    rt.stdin().read_to_end(&mut bytes)?;
    let file = std::str::from_utf8(bytes.as_slice())
        .ok()
        .context("the file is not text")?;
    let lines = lines_of(rt.alloc(), file)?;
    let score = play(&rt, lines.as_slice())?;
    rt.println(score)?;
    Ok(())
}
