use crate::line::{Call, Reading, RowVerb};
use crate::said::Said;
use crate::values::Written;
use crate::words::{mask, number};
use panel::panel::Panel;
use std::alloc::{AllocError, Global};
use trust::rule::TrustRule;

// What a host keeps: a row of values, and a panel over its rule once one is opened.
#[derive(Drop)]
pub(crate) struct Host<'r, R, V> {
    rule: &'r R,
    row: Vec<V>,
    panel: Option<Panel<'r, R>>,
}

// The roll that is the first places of a row, by its length.
fn roll_of<'v, V>(row: &'v mut [V], length: &str) -> Option<&'v mut [V]> {
    row.get_mut(..number(length)?)
}

impl<'r, R: TrustRule, V: Written> Host<'r, R, V> {
    // A row of so many values, with all fields 0.
    pub(crate) fn new(
        heap: Global,
        rule: &'r R,
        length: u16,
    ) -> Result<Host<'r, R, V>, AllocError> {
        Ok(Host {
            rule,
            row: vec![in heap; V::default(); usize::from(length)]?,
            panel: None,
        })
    }

    fn open(&mut self, fields: &[&str]) -> Option<Said> {
        let [slots, faulty, roll] = fields.as_array::<3>()?;
        let roll = roll_of(self.row.as_mut_slice(), roll)?;
        match Panel::open(self.rule, number(slots)?, mask(faulty)?, roll) {
            Ok(panel) => {
                self.panel = Some(panel);
                Some(Said::Opened)
            }
            Err(refusal) => Some(Said::Refused(refusal)),
        }
    }

    // The value at a place of the row.
    fn place(&self, fields: &[&str]) -> Option<Said> {
        let [place] = fields.as_array::<1>()?;
        Some((*self.row.get(number::<usize>(place)?)?).into())
    }

    // A call may change the panel and the row.
    fn call(&mut self, call: Call, fields: &[&str]) -> Option<Said> {
        let Some(panel) = &mut self.panel else {
            return Some(Said::Missing);
        };
        let row = self.row.as_mut_slice();
        Some(Said::Answered(match call {
            Call::Propose => {
                let [slot, value, roll] = fields.as_array::<3>()?;
                panel.propose(roll_of(row, roll)?, number(slot)?, V::read(value)?)
            }
            Call::Forge => {
                let [kind, slot, from, to, value, roll] = fields.as_array::<6>()?;
                panel.forge(
                    roll_of(row, roll)?,
                    number(kind)?,
                    number(slot)?,
                    number(from)?,
                    number(to)?,
                    V::read(value)?,
                )
            }
            Call::Hand => {
                let [kind, slot, from, to] = fields.as_array::<4>()?;
                panel.hand(number(kind)?, number(slot)?, number(from)?, number(to)?)
            }
        }))
    }

    fn read(&self, reading: Reading, fields: &[&str]) -> Option<Said> {
        let Some(panel) = &self.panel else {
            return Some(Said::Missing);
        };
        Some(match reading {
            Reading::Receipt => {
                let [slot, node] = fields.as_array::<2>()?;
                let receipt = panel.receipt(number(slot)?, number(node)?);
                receipt.map_or_else(Said::Refused, Said::Receipt)
            }
            Reading::Counts => {
                let [slot] = fields.as_array::<1>()?;
                let counts = panel.counts(number(slot)?);
                counts.map_or_else(Said::Refused, Said::Counts)
            }
            Reading::Tally => {
                let [node, account, roll] = fields.as_array::<3>()?;
                let roll = self.row.get(..number(roll)?)?;
                let tally = panel.tally(roll, number(node)?, number(account)?);
                tally.map_or_else(Said::Refused, |(counted, left_out)| {
                    Said::Tally { counted, left_out }
                })
            }
        })
    }

    // What is answered; nothing where the fields have not the form of the step.
    pub(crate) fn answer(&mut self, verb: RowVerb, fields: &[&str]) -> Option<Said> {
        match verb {
            RowVerb::Open => self.open(fields),
            RowVerb::Place => self.place(fields),
            RowVerb::Call(call) => self.call(call, fields),
            RowVerb::Read(reading) => self.read(reading, fields),
        }
    }
}
