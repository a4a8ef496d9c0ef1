ghost use Rattle.std.specs.Prelude.{◌≡◌, ◌≤◌, List, map, Ok, Err, OnErr};
ghost use Rattle.text.specs.Drafts.{complete, Kept};
ghost use Rattle.text.specs.Outcomes.{Finished};

use super::Draft;
use crate::record::Record;
use trust::node_trust::NodeTrust;
use trust::refusal::Refusal;
use trust::statement::Statement;

// A node without Q lines has the rests of its fail-prone sets as its quorums.
fn complete(node: &mut NodeTrust, n: u32)
    requires { n ≤ 16 }
    ensures { node.new ≡ complete n node.old }
{
    if node.quorums.is_empty() {
        node.quorums = node.fails.rests(n);
    }
}

impl Draft {
    // What the nodes trust at the end of the text.
    fn completed(self, nodes: u32) -> [NodeTrust; 16]
        requires { nodes ≤ 16 }
        ensures { result ≡ map (complete nodes) self.trust }
    {
        let mut trust = self.trust;
        // `map` of the array was tried: its contract leaves open what the closure has captured from the second call on.
        for node in trust.iter_mut() {
            complete(node, nodes);
        }
        trust
    }

    // Makes the statement the one that the records make, or says the refusal at the end of the text and leaves it as it is.
    pub(crate) fn finish(self, statement: &mut Statement) -> Result<(), Refusal>
        ensures finished { (before : List Record) → Kept self before → elim result [ Ok _ ↦ Finished before (Ok statement.new) | Err e ↦ Finished before (Err e) ] }
        ensures same { OnErr result (statement.new ≡ statement.old) }
    {
        let nodes = self.nodes.ok_or(Refusal::Order)?;
        statement.assign(nodes, self.completed(nodes))
    }
}
