ghost use Rattle.std.specs.Prelude.{◌≤◌};

use protocol::slot::Slot;

pub(crate) mod counting;
pub(crate) mod index;
pub(crate) mod messages;
pub(crate) mod parties;
pub(crate) mod steps;
pub(crate) mod tallying;

// How many places of the roll are in use, and the slots. The roll is the host's memory, lent for a call, so its length stands here.
#[derive(Clone, Copy)]
pub(crate) struct Board {
    pub used: usize,
    pub slots: [Slot; 16],
    ghost few: { used ≤ 255 },
}
