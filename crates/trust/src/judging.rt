ghost use Rattle.trust.specs.Judging.{Judged};
ghost use Rattle.trust.specs.Statements.{meant};

use crate::statement::Statement;
use sets::Node;

// What a statement is judged to be. The three do not depend on each other.
#[derive(Clone, Copy)]
pub struct Judgement {
    // Of the pairs that do not pass, the one with the lowest first node, and then the lowest second; none where every pair passes.
    pub b3: Option<(Node, Node)>,
    pub consistency: Option<(Node, Node)>,
    // The lowest node that does not pass; none where every node passes.
    pub availability: Option<Node>,
}

impl Statement {
    // Every pair (i, j) of nodes is tried, (i, i) too, and in both orders.
    pub fn judge(&self) -> Judgement
        ensures { Judged (meant self.now) result }
    {
        Judgement {
            b3: self.first_not_b3(),
            consistency: self.first_inconsistent(),
            availability: self.first_unavailable(),
        }
    }
}
