ghost use Rattle.std.specs.Prelude.{◌≡◌, Some};
ghost use Rattle.protocol.specs.Fresh.{fresh_record};
ghost use Rattle.protocol.specs.Hearing.{is, recorded_with, once, now_set, told, hear};
ghost use Rattle.protocol.specs.Words.{heard_word};

use crate::message::{Kind, Message, Place};
use sets::{Node, NodeSet};
use std::fmt;
use trust::rule::TrustRule;

// What a node knows of one broadcast: the values that it echoed, readied and delivered,
// and the first ECHO and the first READY from each node, node k's at k - 1.
// The last two are arrays of their own: each is counted as a whole, and never both at one node.
#[derive(Clone, Copy, Debug, PartialEq, Eq)]
pub struct Record {
    pub echoed: Option<Place>,
    pub readied: Option<Place>,
    pub delivered: Option<Place>,
    pub echoes: [Option<Place>; 16],
    pub readies: [Option<Place>; 16],
}

// What a node did with a message.
#[derive(Clone, Copy, Debug, PartialEq, Eq)]
pub enum Heard {
    Ignored,
    Recorded,
    Echoed,
    Readied,
    Delivered,
    ReadiedDelivered,
}

impl fmt::Display for Heard {
    ghost output = { λ heard. Some (heard_word heard) };

    fn fmt<W: fmt::Write>(&self, f: &mut fmt::Formatter<W>) -> fmt::Result {
        f.write_str(match self {
            Heard::Ignored => "ignored",
            Heard::Recorded => "recorded",
            Heard::Echoed => "echoed",
            Heard::Readied => "readied",
            Heard::Delivered => "delivered",
            Heard::ReadiedDelivered => "readied delivered",
        })
    }
}

// The place stands in the entry. `entry == Some(place)` in the loop below was tried: a node's step took twice the time.
fn is_place(entry: Option<Place>, place: Place) -> bool
    ensures { result ≡ is place entry }
{
    entry.is_some_and(|other| other == place)
}

// The nodes recorded with a value. A fold of the entries that `filter` lets through was tried: what it returns was not proved.
fn recorded_with(entries: &[Option<Place>; 16], place: Place) -> NodeSet
    ensures { result.0 ≡ recorded_with entries.now place }
{
    let mut nodes = NodeSet(0);
    for (k, entry) in entries.iter().enumerate() {
        if is_place(*entry, place) {
            nodes = nodes.with(Node(k as u32 + 1));
        }
    }
    nodes
}

// Writes the value where the test passes and nothing stands there yet, and says whether it did.
// The test stays beside the value: as one `Option` each call would write `test.then_some(place)`, which is no plainer.
fn set_once(entry: &mut Option<Place>, test: bool, place: Place) -> bool
    ensures after { entry.new ≡ once test place entry.old }
    ensures said { result ≡ now_set test entry.old }
{
    if entry.is_some() || !test {
        return false;
    }
    *entry = Some(place);
    true
}

// What a node did that recorded a message.
fn heard_of(readied: bool, delivered: bool) -> Heard
    ensures { result ≡ told readied delivered }
{
    match (readied, delivered) {
        (true, true) => Heard::ReadiedDelivered,
        (true, false) => Heard::Readied,
        (false, true) => Heard::Delivered,
        (false, false) => Heard::Recorded,
    }
}

impl Record {
    // Nothing echoed, readied, delivered or recorded.
    pub fn fresh() -> Record
        ensures { result ≡ fresh_record }
    {
        Record {
            echoed: None,
            readied: None,
            delivered: None,
            echoes: [None; 16],
            readies: [None; 16],
        }
    }

    // What the node `me` does with a message in the slot of that sender. It ignores a SEND that is
    // not the sender's or not the first, a second ECHO or READY of a node, and what no node says.
    pub fn hear<R: TrustRule>(
        &mut self,
        rule: &R,
        me: Node,
        sender: Node,
        message: Message,
    ) -> Heard
        ensures after { self.new ≡ (hear (R.meaning rule.now) me.0 sender.0 self.old message.kind message.from.0 message.place).0 }
        ensures said { result ≡ (hear (R.meaning rule.now) me.0 sender.0 self.old message.kind message.from.0 message.place).1 }
    {
        let Message { kind, from, place } = message;
        if !from.is_among(rule.size()) {
            return Heard::Ignored;
        }
        // Here, beside the test: an index function of `Node` would have to answer an Option, or ask for a node above 0.
        let at = (from.0 - 1) as usize;
        match (kind, self.echoed, self.echoes[at], self.readies[at]) {
            (Kind::Send, None, _, _) if from == sender => {
                self.echoed = Some(place);
                Heard::Echoed
            }
            (Kind::Echo, _, None, _) => {
                self.echoes[at] = Some(place);
                let echoers = recorded_with(&self.echoes, place);
                let quorum = rule.holds_quorum(me, echoers);
                heard_of(set_once(&mut self.readied, quorum, place), false)
            }
            (Kind::Ready, _, _, None) => {
                self.readies[at] = Some(place);
                let readiers = recorded_with(&self.readies, place);
                let kernel = rule.holds_kernel(me, readiers);
                let quorum = rule.holds_quorum(me, readiers);
                let readied = set_once(&mut self.readied, kernel, place);
                let delivered = set_once(&mut self.delivered, quorum, place);
                heard_of(readied, delivered)
            }
            _ => Heard::Ignored,
        }
    }
}
