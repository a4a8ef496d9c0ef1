// A certificate to withdraw, by its serial.
#[derive(Clone, Copy, Default, Debug, PartialEq, Eq)]
pub struct Withdrawal {
    pub serial: u64,
}

pub mod kind;
