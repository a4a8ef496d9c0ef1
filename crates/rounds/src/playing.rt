use crate::totals::Totals;
use kinds::withdrawal::Withdrawal;
use panel::panel::Panel;
use protocol::message::Kind;
use sets::NodeSet;
use trust::rule::TrustRule;

// Node 16 is faulty, and so slot 15, of which it is the sender, has no proposal.
const FAULTY: NodeSet = NodeSet(0x8000);

const NODES: u32 = 16;

const SLOTS: u32 = 16;

const KINDS: [Kind; 3] = [Kind::Send, Kind::Echo, Kind::Ready];

// What node 16 lies by.
const LIES: [Kind; 2] = [Kind::Echo, Kind::Ready];

// The number that a call has for a kind.
fn number(kind: Kind) -> u32 {
    u32::from(u8::from(kind))
}

// The withdrawal of an account with that low part of its serial.
fn withdrawal(account: u16, low: u32) -> Withdrawal {
    Withdrawal {
        serial: (u64::from(account) << 48) + u64::from(low),
    }
}

// A panel, the roll that its host keeps, the account of all values, and what came of this round and of those before.
#[derive(Drop)]
struct Round<'r, R> {
    panel: Panel<'r, R>,
    roll: [Withdrawal; 16],
    account: u16,
    totals: Totals,
}

impl<R: TrustRule> Round<'_, R> {
    fn propose_all(&mut self) {
        for slot in 0..SLOTS - 1 {
            let value = withdrawal(self.account, slot + 1);
            let answer = self.panel.propose(&mut self.roll, slot, value);
            self.totals.add_call(answer);
        }
    }

    // The first value from node 16 to every other node.
    fn forge(&mut self, kind: Kind, slot: u32) {
        let kind = number(kind);
        let value = withdrawal(self.account, 1);
        for to in 1..NODES {
            let roll = &mut self.roll;
            let answer = self.panel.forge(roll, kind, slot, NODES, to, value);
            self.totals.add_call(answer);
        }
    }

    // In every slot an ECHO and then a READY.
    fn forge_all(&mut self) {
        let kinds = (0..SLOTS).flat_map(|slot| LIES.into_iter().map(move |kind| (slot, kind)));
        for (slot, kind) in kinds {
            self.forge(kind, slot);
        }
    }

    // A hand from that node to every node.
    fn hand_from(&mut self, kind: u32, slot: u32, from: u32) {
        for to in 1..=NODES {
            self.totals.add_call(self.panel.hand(kind, slot, from, to));
        }
    }

    // A hand from every node to every node. It is no chain over pairs of nodes: that was tried, and took a third longer.
    fn hand(&mut self, kind: Kind, slot: u32) {
        let kind = number(kind);
        for from in 1..=NODES {
            self.hand_from(kind, slot, from);
        }
    }

    fn hand_all(&mut self) {
        let kinds = (0..SLOTS).flat_map(|slot| KINDS.into_iter().map(move |kind| (slot, kind)));
        for (slot, kind) in kinds {
            self.hand(kind, slot);
        }
    }

    fn read_counts(&mut self) {
        for slot in 0..SLOTS {
            if let Ok(counts) = self.panel.counts(slot) {
                self.totals.add_counts(counts);
            }
        }
    }

    fn read_receipts(&mut self) {
        for slot in 0..SLOTS {
            let delivered = (1..=NODES)
                .filter(|node| matches!(self.panel.receipt(slot, *node), Ok(Some(_))))
                .count();
            self.totals.add_deliveries(delivered);
        }
    }

    fn read_tallies(&mut self) {
        for node in 1..=NODES {
            if let Ok((counted, left_out)) = self.panel.tally(&self.roll, node, self.account) {
                self.totals.add_tally(counted, left_out);
            }
        }
    }
}

// One round: every call once, in slots of which all but one have a proposal, while node 16 lies.
pub(crate) fn play<R: TrustRule>(rule: &R, number: u64, totals: Totals) -> Totals {
    let roll = [Withdrawal { serial: 0 }; 16];
    let Ok(panel) = Panel::open(rule, SLOTS, FAULTY, &roll) else {
        return totals;
    };
    let mut round = Round {
        panel,
        roll,
        account: (number % 1000 + 1) as u16,
        totals,
    };
    round.propose_all();
    round.forge_all();
    round.hand_all();
    round.read_counts();
    round.read_receipts();
    round.read_tallies();
    round.totals
}
