#![tactic(auto)]

use reports::guilds::Guilds;
use reports::reporting::report_on_reader;

// Reads a statement text from standard input and prints its table of guilds, or the line of its refusal.
fn main(rt: HostRuntime) -> anyhow::Result<()> {
    let out = report_on_reader::<Guilds>(&rt, &mut rt.stdin())?;
    rt.print(out.as_str())?;
    Ok(())
}
