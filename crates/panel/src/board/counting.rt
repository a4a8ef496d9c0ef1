ghost use Rattle.std.specs.Prelude.{◌≡◌, ℕ, ◌≤◌, Bool};
ghost use Rattle.broadcast.specs.Counts.{count, between, each_kind};
ghost use Rattle.panel.specs.Broadcasts.{setting_of, says, Tests, TestsRoutes, counts_in};

use super::index::{Member, Route};
use super::parties::Broadcast;
use protocol::message::Kind;
use runs::call::Counts;
use sets::Node;

// How many of the nodes 1 to n pass.
// A loop, as in `count_kind`, and no `nodes_where` of trust, which is private there: nothing tells a chain's closure that its number is one of 1 to 16, and that proof did not close.
fn count<F: Fn(Member) -> bool>(n: u32, test: F) -> u32
    requires few { n ≤ 16 }
    requires callable { F.IsAlwaysCallable test }
    ensures value { (p : ℕ → Bool) → Tests (F.post test) p → result ≡ count n p }
    ensures bound { result ≤ n }
{
    let mut passed = 0;
    for k in 0..n {
        if test(Member { node: Node(k + 1) }) {
            passed += 1;
        }
    }
    passed
}

impl<'b> Broadcast<'b> {
    // How many messages of a kind between correct nodes pass.
    fn count_kind<F: Fn(Route) -> bool>(&self, kind: Kind, test: F) -> u32
        requires { F.IsAlwaysCallable test }
        ensures value { (p : Kind → ℕ → ℕ → Bool) → TestsRoutes (F.post test) p → result ≡ between (setting_of self.now) (p kind) }
        ensures bound { result ≤ 256 }
    {
        let parties = self.parties;
        let mut passed = 0;
        for k in 0..parties.size {
            let from = Member { node: Node(k + 1) };
            passed += count(parties.size, |to| {
                let route = Route { kind, from, to };
                parties.join(route) && test(route)
            });
        }
        passed
    }

    // How many messages between correct nodes pass.
    fn count_messages<F: Fn(Route) -> bool>(&self, test: F) -> u32
        requires { F.IsAlwaysCallable test }
        ensures { (p : Kind → ℕ → ℕ → Bool) → TestsRoutes (F.post test) p → result ≡ each_kind (λ m. between (setting_of self.now) (p m)) }
    {
        self.count_kind(Kind::Send, &test)
            + self.count_kind(Kind::Echo, &test)
            + self.count_kind(Kind::Ready, &test)
    }

    // How many correct nodes have said something of that kind.
    fn count_sayers(&self, kind: Kind) -> u32
        ensures { result ≡ count self.now.parties.size (says (setting_of self.now) self.now.slot.now kind) }
    {
        count(self.parties.size, |node| {
            self.parties.is_correct(node.node) && self.said(kind, node).is_some()
        })
    }

    // The five counts of a slot.
    pub(crate) fn counts(&self) -> Counts
        ensures { result ≡ counts_in (setting_of self.now) self.now.slot.now }
    {
        Counts {
            proposed: u32::from(self.slot.proposal.is_some()),
            echoed: self.count_sayers(Kind::Echo),
            readied: self.count_sayers(Kind::Ready),
            heard: self.count_messages(|route| self.taken(route).is_some()),
            waiting: self.count_messages(|route| self.waiting(route).is_some()),
        }
    }
}
