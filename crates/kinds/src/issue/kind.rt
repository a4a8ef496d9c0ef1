ghost use Rattle.kinds.specs.Issues.{issues};

use super::Issue;
use runs::value::ValueKind;

// The longest lifetime of a certificate, in seconds.
const LONGEST: u64 = 7_776_000;

impl ValueKind for Issue {
    ghost values = { issues };

    fn same(&self, other: &Issue) -> bool {
        self == other
    }

    fn fit(&self) -> bool {
        self.end > self.start && self.end - self.start <= LONGEST
    }

    // Three of the fields, where `==` has all six.
    fn same_claim(&self, other: &Issue) -> bool {
        self.account == other.account
            && self.device == other.device
            && self.request == other.request
    }

    fn account(&self) -> u16 {
        self.account
    }
}
