#![tactic(auto)]

use anyhow::{Context, bail};
use kinds::issue::Issue;
use panel::panel::Panel;
use protocol::message::Kind;
use runs::call::{Call, Entry, Outcome};
use sets::{Node, NodeSet};
use std::alloc::{AllocError, Global};
use text::reading::statement_of;
use trust::rule::TrustRule;
use trust::sorting::sort;

// The statement of five plants; node 4 is the one that lies.
const TEXT: &[u8] =
    b"N\t5\nF\t1\t0018\nF\t2\t0018\nF\t3\t0018\nF\t4\t0001\nF\t4\t0010\nF\t5\t0002\nF\t5\t0008\n";

const NODES: u32 = 5;

const FAULTY: NodeSet = NodeSet(0x0008);

const SLOTS: u32 = 2;

const KINDS: [Kind; 3] = [Kind::Send, Kind::Echo, Kind::Ready];

const ACCOUNT: u16 = 7;

// A renewal of one device by one request; a retry has another key.
fn renewal(key_print: u64) -> Issue {
    Issue {
        account: ACCOUNT,
        device: 1001,
        request: 42,
        key_print,
        start: 1_000_000,
        end: 3_592_000,
    }
}

// A call of a list. The panel has no heap and writes each answer into the host's own list, so one stands there before.
fn entry(call: Call<Issue>) -> Entry<Issue> {
    Entry {
        call,
        answer: Ok(Outcome::Already),
    }
}

// The number that a call has for a kind.
fn number(kind: Kind) -> u32 {
    u32::from(u8::from(kind))
}

fn propose(slot: u32, value: Issue) -> Entry<Issue> {
    entry(Call::Propose { slot, value })
}

// Node 4 lies to another node.
fn lie(kind: Kind, slot: u32, to: u32, value: Issue) -> Entry<Issue> {
    entry(Call::Forge {
        kind: number(kind),
        slot,
        from: 4,
        to,
        value,
    })
}

fn hand(kind: Kind, slot: u32, from: u32, to: u32) -> Entry<Issue> {
    entry(Call::Hand {
        kind: number(kind),
        slot,
        from,
        to,
    })
}

// A hand of every message that there could be: by slot, kind, sender and receiver.
fn hands(heap: Global) -> Result<Vec<Entry<Issue>>, AllocError> {
    (0..SLOTS)
        .flat_map(|slot| KINDS.into_iter().map(move |kind| (slot, kind)))
        .flat_map(|(slot, kind)| (1..=NODES).map(move |from| (slot, kind, from)))
        .flat_map(|(slot, kind, from)| (1..=NODES).map(move |to| hand(kind, slot, from, to)))
        .collect(heap)
}

fn print_answers(rt: &impl Print, log: &[Entry<Issue>]) -> anyhow::Result<()> {
    for entry in log {
        match entry.answer {
            Ok(outcome) => println!(rt; "{outcome}")?,
            Err(_) => println!(rt; "refused")?,
        }
    }
    Ok(())
}

// How many calls of a list were not refused.
fn accepted(log: &[Entry<Issue>]) -> usize {
    log.iter().filter(|entry| entry.answer.is_ok()).count()
}

// A host of one panel, with the roll that it keeps for it.
#[derive(Drop)]
struct Host<'r, R> {
    panel: Panel<'r, R>,
    roll: [Issue; 8],
}

impl<'r, R: TrustRule> Host<'r, R> {
    fn open(rule: &'r R) -> anyhow::Result<Host<'r, R>> {
        let roll = [renewal(0); 8];
        let panel = Panel::open(rule, SLOTS, FAULTY, &roll)
            .ok()
            .context("the panel does not open")?;
        Ok(Host { panel, roll })
    }

    fn run(&mut self, log: &mut [Entry<Issue>]) {
        self.panel.run(&mut self.roll, log);
    }

    // Nothing waits in any slot.
    fn is_quiet(&self) -> bool {
        (0..SLOTS).all(|slot| {
            self.panel
                .counts(slot)
                .is_ok_and(|counts| counts.waiting == 0)
        })
    }

    // Plays hands of everything, round by round, until nothing waits.
    fn hand_over(&mut self, rt: &(impl Print + AllocGlobal)) -> anyhow::Result<()> {
        for round in 1..20u32 {
            if self.is_quiet() {
                println!(rt; "nothing waits")?;
                return Ok(());
            }
            let mut list = hands(rt.alloc())?;
            self.run(list.as_mut_slice());
            let n = accepted(list.as_slice());
            println!(rt; "round {round}: {n} messages handed over")?;
        }
        Ok(())
    }

    // What a guild node delivered in each slot, and what it charges.
    fn print_node(&self, rt: &impl Print, node: u32) -> anyhow::Result<()> {
        for slot in 0..SLOTS {
            if let Ok(Some(place)) = self.panel.receipt(slot, node) {
                println!(rt; "node {node} slot {slot}: delivered place {}", place.0)?;
            }
        }
        if let Ok((counted, left_out)) = self.panel.tally(&self.roll, node, ACCOUNT) {
            println!(rt; "node {node}: {counted} counted, {left_out} left out")?;
        }
        Ok(())
    }
}

// The calls of the run: two proposals of one renewal under two keys, and the lies.
fn calls() -> [Entry<Issue>; 7] {
    [
        propose(0, renewal(1)),
        propose(1, renewal(2)),
        lie(Kind::Echo, 0, 1, renewal(9)),
        lie(Kind::Ready, 0, 2, renewal(9)),
        lie(Kind::Echo, 1, 3, renewal(1)),
        lie(Kind::Echo, 1, 3, renewal(2)),
        lie(Kind::Send, 1, 5, renewal(9)),
    ]
}

fn play<R: TrustRule>(rt: &(impl Print + AllocGlobal), rule: &R) -> anyhow::Result<()> {
    let mut host = Host::open(rule)?;
    let mut log = calls();
    host.run(&mut log);
    print_answers(rt, &log)?;
    host.hand_over(rt)?;
    let sorted = sort(rule, FAULTY)
        .ok()
        .context("the faulty mask does not fit")?;
    for node in (1..=NODES).filter(|node| sorted.guild.has(Node(*node))) {
        host.print_node(rt, node)?;
    }
    Ok(())
}

fn main(rt: HostRuntime) -> anyhow::Result<()> {
    let Ok(statement) = statement_of(TEXT) else {
        bail!("the statement is refused");
    };
    play(&rt, &statement)
}
