ghost use Rattle.std.specs.Prelude.{Some};
ghost use Rattle.runs.specs.Words.{outcome_word};

use protocol::record::Heard;
use std::fmt;
use trust::refusal::Refusal;

// What a host asks of an open panel. Any number may be passed for a slot, a node and a kind.
// A message is four numbers, as in the panel's calls: a C host passes them one by one, and only a panel knows their ranges.
#[derive(Clone, Copy)]
pub enum Call<V> {
    // A slot's correct sender sends a value to every node.
    Propose {
        slot: u32,
        value: V,
    },
    // A faulty node's message, with any fit value, reaches a correct node.
    Forge {
        kind: u32,
        slot: u32,
        from: u32,
        to: u32,
        value: V,
    },
    // A waiting message of a correct node reaches a correct node.
    Hand {
        kind: u32,
        slot: u32,
        from: u32,
        to: u32,
    },
}

// What a call that is not refused came to.
#[derive(Clone, Copy, Debug, PartialEq, Eq)]
pub enum Outcome {
    Proposed,
    // The same value was proposed before.
    Already,
    // What the node did.
    Stepped(Heard),
}

impl fmt::Display for Outcome {
    ghost output = { λ outcome. Some (outcome_word outcome) };

    fn fmt<W: fmt::Write>(&self, f: &mut fmt::Formatter<W>) -> fmt::Result {
        match self {
            Outcome::Proposed => f.write_str("proposed"),
            Outcome::Already => f.write_str("already"),
            Outcome::Stepped(heard) => heard.fmt(f),
        }
    }
}

// What a call is answered.
pub type Answer = Result<Outcome, Refusal>;

// A call of a list, and beside it its answer once it was made. No Option, which every reader of a played list would have to open.
#[derive(Clone, Copy)]
pub struct Entry<V> {
    pub call: Call<V>,
    pub answer: Answer,
}

// A slot's five counts, over correct nodes: proposals, nodes that echoed, nodes that readied, accepted hands, waiting messages.
#[derive(Clone, Copy, Debug, PartialEq, Eq)]
pub struct Counts {
    pub proposed: u32,
    pub echoed: u32,
    pub readied: u32,
    pub heard: u32,
    pub waiting: u32,
}
