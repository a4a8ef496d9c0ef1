ghost use Rattle.kinds.specs.Withdrawals.{withdrawals};

use super::Withdrawal;
use runs::value::ValueKind;

impl ValueKind for Withdrawal {
    ghost values = { withdrawals };

    fn same(&self, other: &Withdrawal) -> bool {
        self == other
    }

    fn fit(&self) -> bool {
        self.serial != 0
    }

    fn same_claim(&self, other: &Withdrawal) -> bool {
        self.serial == other.serial
    }

    // The top 16 bits of the serial.
    fn account(&self) -> u16 {
        (self.serial >> 48) as u16
    }
}
