ghost use Rattle.std.specs.Prelude.{◌≡◌, ℕ, ◌≤◌, Bool, true, false, Ok, Err};
ghost use Rattle.sets.specs.Sets.{set?, nodes_with};
ghost use Rattle.trust.specs.Keeping.{NodesAnswerAs, keep};
ghost use Rattle.trust.specs.Serving.{SoundServes};
ghost use Rattle.trust.specs.Sorting.{wise_mask, naive_mask, max_guild};

use crate::refusal::Refusal;
use crate::rule::TrustRule;
use sets::{Node, NodeSet};

// The nodes sorted for a faulty set: the correct nodes that tolerate it, those that do not, and the maximal guild.
#[derive(Clone, Copy)]
pub struct Sorted {
    pub wise: NodeSet,
    pub naive: NodeSet,
    pub guild: NodeSet,
}

// Those of the nodes 1 to n that pass. A fold of those that `filter` lets through was tried: what it returns was not proved.
// It stands here and not in `sets`, where it would be public, since it asks for a closure that may be called.
fn nodes_where<F: Fn(Node) -> bool>(n: u32, passes: F) -> NodeSet
    requires few { n ≤ 16 }
    requires callable { F.IsAlwaysCallable passes }
    ensures { (p : ℕ → Bool) → NodesAnswerAs F.Fn passes p → result.0 ≡ nodes_with n p }
{
    let mut nodes = NodeSet(0);
    for k in 0..n {
        let node = Node(k + 1);
        if passes(node) {
            nodes = nodes.with(node);
        }
    }
    nodes
}

// Those members of the set that hold a quorum inside it.
fn kept<R: TrustRule>(rule: &R, set: NodeSet) -> NodeSet
    ensures { result.0 ≡ keep (R.meaning rule.now) set.0 }
{
    nodes_where(rule.size(), |node| {
        set.has(node) && rule.holds_quorum(node, set)
    })
}

// What is left of the wise nodes when nobody is left out any more.
fn largest_guild<R: TrustRule>(rule: &R, wise: NodeSet) -> NodeSet
    ensures { (f : ℕ) → wise.0 ≡ wise_mask (R.meaning rule.now) f → result.0 ≡ max_guild (R.meaning rule.now) f }
{
    let mut guild = wise;
    let mut next = kept(rule, guild);
    while next != guild {
        guild = next;
        next = kept(rule, guild);
    }
    guild
}

// Refused where the faulty mask has a bit above the rule's size.
pub fn sort<R: TrustRule>(rule: &R, faulty: NodeSet) -> Result<Sorted, Refusal>
    ensures sorts { elim result [ Ok s ↦ (set? (R.meaning rule.now).size faulty.0 ≡ true) × (s.wise.0 ≡ wise_mask (R.meaning rule.now) faulty.0) × (s.naive.0 ≡ naive_mask (R.meaning rule.now) faulty.0) × (s.guild.0 ≡ max_guild (R.meaning rule.now) faulty.0) | Err e ↦ (set? (R.meaning rule.now).size faulty.0 ≡ false) × (e ≡ Refusal.FaultyMask) ] }
    ensures serves { SoundServes }
{
    let size = rule.size();
    if !faulty.fits(size) {
        return Err(Refusal::FaultyMask);
    }
    let wise = nodes_where(size, |node| {
        !faulty.has(node) && rule.tolerated(node, faulty)
    });
    let naive = nodes_where(size, |node| {
        !faulty.has(node) && !rule.tolerated(node, faulty)
    });
    let guild = largest_guild(rule, wise);
    Ok(Sorted { wise, naive, guild })
}
