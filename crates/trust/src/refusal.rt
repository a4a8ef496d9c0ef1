ghost use Rattle.std.specs.Prelude.{◌≡◌, Some};
ghost use Rattle.trust.specs.Refusals.{refusal_number, refused_words};

use std::fmt;

// Why something is refused.
#[derive(Clone, Copy, PartialEq, Eq, Debug)]
pub enum Refusal {
    // A line without end, a first field that is no letter, a wrong field count or digit form.
    Form,
    // A count, node or mask outside its range.
    Range,
    // N missing or second, or lines out of order.
    Order,
    // A 17th F or Q line of a node.
    TooMany,
    // A node has no F line.
    NoFailProneSet,
    // A slot count outside 1 to 16.
    SlotCount,
    // A roll of no place, of more than 255, or shorter than its used places.
    RollSize,
    // The faulty mask has a bit above n.
    FaultyMask,
    // The rule is not sound.
    Unsound,
    // A slot, node or kind of message out of range.
    NoSuch,
    // A faulty node where a correct one is asked for, or a correct one where a faulty one is.
    WrongParty,
    // A value that is not fit.
    Unfit,
    // The slot has another proposal.
    OtherProposal,
    // No such message waits.
    NotWaiting,
    // The value is new and the roll is full.
    RollFull,
}

impl From<Refusal> for u8 {
    // The number that stands for the refusal.
    ghost from_gives = { λ refusal number. number ≡ refusal_number refusal };

    fn from(refusal: Refusal) -> u8 {
        match refusal {
            Refusal::Form => 1,
            Refusal::Range => 2,
            Refusal::Order => 3,
            Refusal::TooMany => 4,
            Refusal::NoFailProneSet => 5,
            Refusal::SlotCount => 6,
            Refusal::RollSize => 7,
            Refusal::FaultyMask => 8,
            Refusal::Unsound => 9,
            Refusal::NoSuch => 10,
            Refusal::WrongParty => 11,
            Refusal::Unfit => 12,
            Refusal::OtherProposal => 13,
            Refusal::NotWaiting => 14,
            Refusal::RollFull => 15,
        }
    }
}

impl fmt::Display for Refusal {
    ghost output = { λ refusal. Some (refused_words refusal) };

    fn fmt<W: fmt::Write>(&self, f: &mut fmt::Formatter<W>) -> fmt::Result {
        let number = u8::from(*self);
        write!(f, "refused {number}")
    }
}
