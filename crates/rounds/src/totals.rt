use runs::call::{Answer, Counts};
use std::fmt;

// What came of all rounds: calls by their answer, and sums over the readings. A sum wraps.
#[derive(Clone, Copy, Default)]
pub struct Totals {
    accepted: u64,
    refused: u64,
    heard: u64,
    waiting: u64,
    delivered: u64,
    counted: u64,
    left_out: u64,
}

impl Totals {
    pub(crate) fn add_call(&mut self, answer: Answer) {
        match answer {
            Ok(_) => self.accepted = self.accepted.wrapping_add(1),
            Err(_) => self.refused = self.refused.wrapping_add(1),
        }
    }

    pub(crate) fn add_counts(&mut self, counts: Counts) {
        self.heard = self.heard.wrapping_add(u64::from(counts.heard));
        self.waiting = self.waiting.wrapping_add(u64::from(counts.waiting));
    }

    pub(crate) fn add_deliveries(&mut self, delivered: usize) {
        self.delivered = self.delivered.wrapping_add(delivered as u64);
    }

    pub(crate) fn add_tally(&mut self, counted: u32, left_out: u32) {
        self.counted = self.counted.wrapping_add(u64::from(counted));
        self.left_out = self.left_out.wrapping_add(u64::from(left_out));
    }
}

impl fmt::Display for Totals {
    fn fmt<W: fmt::Write>(&self, f: &mut fmt::Formatter<W>) -> fmt::Result {
        writeln!(
            f,
            "accepted {}\nrefused {}\nheard {}\nwaiting {}",
            self.accepted, self.refused, self.heard, self.waiting
        )?;
        writeln!(
            f,
            "delivered {}\ncounted {}\nleft out {}",
            self.delivered, self.counted, self.left_out
        )
    }
}
