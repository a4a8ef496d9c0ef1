ghost use Rattle.std.specs.Prelude.{◌≤◌};

use crate::board::Board;
use sets::NodeSet;

mod calls;
mod forging;
mod messages;
mod opening;
mod parties;
mod readings;
mod running;

// A panel over a trust rule: how many slots it has, which nodes are faulty, and what has happened.
#[derive(Drop)]
pub struct Panel<'r, R> {
    rule: &'r R,
    count: u32,
    faulty: NodeSet,
    board: Board,
    ghost few: { count ≤ 16 },
}
