#![tactic(auto)]

use reports::judgement::Judgements;
use reports::reporting::report_on_reader;

// Reads a statement text from standard input and prints its judgement, or the line of its refusal.
fn main(rt: HostRuntime) -> anyhow::Result<()> {
    let out = report_on_reader::<Judgements>(&rt, &mut rt.stdin())?;
    rt.print(out.as_str())?;
    Ok(())
}
