ghost use Rattle.std.specs.Prelude.{◌≡◌, ℕ, ◌+◌, ◌<◌, ◌≤◌, List, [], ◌∷◌, ◌++◌, Some};
ghost use Rattle.reports.specs.Written.{hex_byte, mask_bytes, row_bytes};

use sets::NodeSet;
use std::fmt;
use trust::sorting::Sorted;

// A mask as it is written: four hexadecimal digits.
#[derive(Clone, Copy)]
pub struct Mask(pub NodeSet);

impl fmt::Display for Mask {
    ghost output = { λ m. Some (mask_bytes m.0.0) };

    fn fmt<W: fmt::Write>(&self, f: &mut fmt::Formatter<W>) -> fmt::Result {
        let mask = self.0.0;
        write!(f, "{mask:04x}")
    }
}

// The row of `guilds` for a faulty set.
#[derive(Clone, Copy)]
pub struct Row {
    pub faulty: NodeSet,
    pub sorted: Sorted,
}

impl fmt::Display for Row {
    ghost output = { λ r. Some (row_bytes r.faulty.0 r.sorted.wise.0 r.sorted.naive.0 r.sorted.guild.0) };

    fn fmt<W: fmt::Write>(&self, f: &mut fmt::Formatter<W>) -> fmt::Result {
        let faulty = Mask(self.faulty);
        let wise = Mask(self.sorted.wise);
        let naive = Mask(self.sorted.naive);
        let guild = Mask(self.sorted.guild);
        writeln!(f, "{faulty} {wise} {naive} {guild}")
    }
}
