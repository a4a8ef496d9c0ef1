ghost use Rattle.std.specs.Prelude.{◌≡◌, Some};
ghost use Rattle.protocol.specs.Kinds.{kind_number, IsKindNumbered};
ghost use Rattle.protocol.specs.Words.{no_such_kind};

use sets::Node;
use std::error::Error;
use std::fmt;

// A value, by its place on the roll.
#[derive(Clone, Copy, Debug, PartialEq, Eq)]
pub struct Place(pub u8);

// What a message says: a proposal, that its sender echoed a value, or that it readied one.
#[derive(Clone, Copy, Debug, PartialEq, Eq)]
pub enum Kind {
    Send,
    Echo,
    Ready,
}

// A number that stands for no kind.
#[derive(Clone, Copy, Debug, PartialEq, Eq)]
pub struct NoSuchKind(pub u32);

impl From<Kind> for u8 {
    ghost from_gives = { λ kind n. n ≡ kind_number kind };

    fn from(kind: Kind) -> u8 {
        match kind {
            Kind::Send => 1,
            Kind::Echo => 2,
            Kind::Ready => 3,
        }
    }
}

impl TryFrom<u32> for Kind {
    type Error = NoSuchKind;

    ghost try_from_gives = { IsKindNumbered };

    fn try_from(n: u32) -> Result<Kind, NoSuchKind> {
        match n {
            1 => Ok(Kind::Send),
            2 => Ok(Kind::Echo),
            3 => Ok(Kind::Ready),
            _ => Err(NoSuchKind(n)),
        }
    }
}

impl fmt::Display for NoSuchKind {
    ghost output = { λ e. Some (no_such_kind e) };

    fn fmt<W: fmt::Write>(&self, f: &mut fmt::Formatter<W>) -> fmt::Result {
        write!(f, "no kind of message has the number {}", self.0)
    }
}

impl Error for NoSuchKind {}

// A message as the node hears it that it was brought to.
#[derive(Clone, Copy, Debug, PartialEq, Eq)]
pub struct Message {
    pub kind: Kind,
    pub from: Node,
    pub place: Place,
}
