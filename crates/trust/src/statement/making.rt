ghost use Rattle.std.specs.Prelude.{◌≡◌, ◌≤◌, ◌&&◌, true, [], ◌∷◌, length, Some, None, Ok, Err, OnOk, nat_lt};
ghost use Rattle.std.specs.Result.{result_err};
ghost use Rattle.std.specs.List.{list_all};
ghost use Rattle.trust.specs.Fitting.{unfit, in_range?, bounded?, some_each?};
ghost use Rattle.trust.specs.NodeTrusts.{fits?, few?, of_each};
ghost use Rattle.trust.specs.Statements.{fail_sets, quorum_sets, meant};
ghost use Rattle.trust.specs.Trust.{sound};
ghost use Rattle.trust.specs.Witness.{Witnesses};

use crate::family::Family;
use crate::node_trust::NodeTrust;
use crate::refusal::Refusal;
use crate::statement::Statement;
use sets::{Node, NodeSet};

// That set alone.
fn only(set: NodeSet) -> Family
    ensures { result ≡ set.0 ∷ [] }
{
    let mut family = Family::empty();
    family.push(set).unwrap();
    family
}

// No set that they trust has a bit above n.
fn all_fit(stated: &[NodeTrust], n: u32) -> bool
    ensures says { result ≡ list_all (fits? n) stated.now }
    ensures few { result ≡ list_all (λ t. fits? n t && few? t) stated.now }
{
    stated.iter().all(|t| t.fits(n))
}

// Each has a fail-prone set.
fn all_prepared(stated: &[NodeTrust]) -> bool
    ensures { result ≡ list_all (λ t. nat_lt 0 (length t.fails)) stated.now }
{
    stated.iter().all(|t| !t.fails.is_empty())
}

// Why what the nodes trust makes no statement, if it makes none.
fn check(nodes: u32, trust: &[NodeTrust; 16]) -> Result<(), Refusal>
    ensures refused { result_err result ≡ unfit nodes trust.now }
    ensures fits { OnOk result ((1 ≤ nodes) × (nodes ≤ 16) × (in_range? nodes trust.now ≡ true) × (bounded? nodes trust.now ≡ true) × (some_each? nodes trust.now ≡ true)) }
{
    if nodes == 0 || nodes > 16 {
        return Err(Refusal::Range);
    }
    let stated = &trust[..nodes as usize];
    if !all_fit(stated, nodes) {
        return Err(Refusal::Range);
    }
    if !all_prepared(stated) {
        return Err(Refusal::NoFailProneSet);
    }
    Ok(())
}

impl Statement {
    // A statement by what its nodes trust, where that fits.
    pub fn new(nodes: u32, trust: [NodeTrust; 16]) -> Result<Statement, Refusal>
        ensures { elim result [ Ok x ↦ (unfit nodes trust ≡ None) × (x.nodes ≡ nodes) × (x.trust ≡ trust) | Err e ↦ unfit nodes trust ≡ Some e ] }
    {
        check(nodes, &trust)?;
        Ok(Statement { nodes, trust })
    }

    // A statement by two lists of families, the fail-prone sets and the quorums of each node, where they fit.
    pub fn of_lists(
        nodes: u32,
        fails: [Family; 16],
        quorums: [Family; 16],
    ) -> Result<Statement, Refusal>
        ensures { elim result [ Ok x ↦ (unfit nodes (of_each fails quorums) ≡ None) × (x.nodes ≡ nodes) × (x.trust ≡ of_each fails quorums) | Err e ↦ unfit nodes (of_each fails quorums) ≡ Some e ] }
    {
        let mut trust = [NodeTrust::nothing(); 16];
        for k in 0..16usize {
            trust[k] = NodeTrust {
                fails: fails[k],
                quorums: quorums[k],
            };
        }
        Statement::new(nodes, trust)
    }

    // Makes this the statement by what its nodes trust, where that fits; else it stays as it was.
    pub fn assign(&mut self, nodes: u32, trust: [NodeTrust; 16]) -> Result<(), Refusal>
        ensures { elim result [ Ok _ ↦ (unfit nodes trust ≡ None) × (self.new.nodes ≡ nodes) × (self.new.trust ≡ trust) | Err e ↦ (unfit nodes trust ≡ Some e) × (self.new ≡ self.old) ] }
    {
        check(nodes, &trust)?;
        *self = Statement { nodes, trust };
        Ok(())
    }

    // One node that trusts itself: its fail-prone set is empty, and its quorum is the node.
    pub fn fresh() -> Statement
        ensures says { (result.nodes ≡ 1) × (fail_sets result 1 ≡ 0 ∷ []) × (quorum_sets result 1 ≡ 1 ∷ []) }
        ensures sound { sound (meant result) ≡ true }
        ensures witnesses { Witnesses }
    {
        let mut trust = [NodeTrust::nothing(); 16];
        trust[0] = NodeTrust {
            fails: only(NodeSet(0)),
            quorums: only(NodeSet(1)),
        };
        Statement { nodes: 1, trust }
    }
}
