use kinds::issue::Issue;
use kinds::withdrawal::Withdrawal;
use protocol::message::Place;
use runs::call::{Answer, Counts};
use sets::Node;
use std::fmt;
use text::reading::Fault;
use trust::judging::Judgement;
use trust::refusal::Refusal;
use trust::sorting::Sorted;

// What a step was answered, and how it is written.
#[derive(Clone, Copy)]
pub enum Said {
    // The line has not the form of a step.
    Unreadable,
    // The rule, statement, row or panel that the step needs is not there.
    Missing,
    Made,
    Refused(Refusal),
    Fault {
        refusal: Refusal,
        line: usize,
        at: usize,
        length: usize,
    },
    Judged(Judgement),
    Size(u32),
    Truth(bool),
    Sorted(Sorted),
    Opened,
    Answered(Answer),
    Receipt(Option<Place>),
    Counts(Counts),
    Tally {
        counted: u32,
        left_out: u32,
    },
    Issue(Issue),
    Withdrawal(Withdrawal),
}

impl From<Fault<'_>> for Said {
    fn from(fault: Fault<'_>) -> Said {
        Said::Fault {
            refusal: fault.refusal,
            line: fault.line,
            at: fault.at,
            length: fault.part.len(),
        }
    }
}

impl From<Issue> for Said {
    fn from(issue: Issue) -> Said {
        Said::Issue(issue)
    }
}

impl From<Withdrawal> for Said {
    fn from(withdrawal: Withdrawal) -> Said {
        Said::Withdrawal(withdrawal)
    }
}

// Two nodes, as they are written. Crate reports has other words: types for both would take them as parameters, which is no plainer.
#[derive(Clone, Copy)]
struct Pair(Node, Node);

impl fmt::Display for Pair {
    fn fmt<W: fmt::Write>(&self, f: &mut fmt::Formatter<W>) -> fmt::Result {
        write!(f, "{},{}", self.0, self.1)
    }
}

// A verdict, as it is written: all pass, or the first that does not.
#[derive(Clone, Copy)]
struct Verdict<T>(Option<T>);

impl<T: fmt::Display> fmt::Display for Verdict<T> {
    fn fmt<W: fmt::Write>(&self, f: &mut fmt::Formatter<W>) -> fmt::Result {
        match &self.0 {
            None => f.write_str("all"),
            Some(first) => write!(f, "{first}"),
        }
    }
}

fn pairs(failing: Option<(Node, Node)>) -> Verdict<Pair> {
    Verdict(failing.map(|(i, j)| Pair(i, j)))
}

// The five counts of a slot, as they are written.
#[derive(Clone, Copy)]
struct Counted(Counts);

impl fmt::Display for Counted {
    fn fmt<W: fmt::Write>(&self, f: &mut fmt::Formatter<W>) -> fmt::Result {
        let c = self.0;
        write!(
            f,
            "{} {} {} {} {}",
            c.proposed, c.echoed, c.readied, c.heard, c.waiting
        )
    }
}

// An issue, as it is written.
#[derive(Clone, Copy)]
struct Fields(Issue);

impl fmt::Display for Fields {
    fn fmt<W: fmt::Write>(&self, f: &mut fmt::Formatter<W>) -> fmt::Result {
        let i = self.0;
        write!(
            f,
            "{},{},{},{},{},{}",
            i.account, i.device, i.request, i.key_print, i.start, i.end
        )
    }
}

impl fmt::Display for Said {
    fn fmt<W: fmt::Write>(&self, f: &mut fmt::Formatter<W>) -> fmt::Result {
        match *self {
            Said::Unreadable => f.write_str("unreadable"),
            Said::Missing => f.write_str("missing"),
            Said::Made => f.write_str("ok"),
            Said::Refused(refusal) => write!(f, "{refusal}"),
            Said::Fault {
                refusal,
                line,
                at,
                length,
            } => write!(f, "{refusal} {line} {at} {length}"),
            Said::Judged(j) => write!(
                f,
                "{} {} {}",
                pairs(j.b3),
                pairs(j.consistency),
                Verdict(j.availability)
            ),
            Said::Size(size) => write!(f, "{size}"),
            Said::Truth(true) => f.write_str("yes"),
            Said::Truth(false) => f.write_str("no"),
            Said::Sorted(s) => write!(f, "{:04x} {:04x} {:04x}", s.wise.0, s.naive.0, s.guild.0),
            Said::Opened => f.write_str("opened"),
            Said::Answered(Ok(outcome)) => write!(f, "{outcome}"),
            Said::Answered(Err(refusal)) => write!(f, "{refusal}"),
            Said::Receipt(Some(place)) => write!(f, "place {}", place.0),
            Said::Receipt(None) => f.write_str("absent"),
            Said::Counts(counts) => write!(f, "{}", Counted(counts)),
            Said::Tally { counted, left_out } => write!(f, "{counted} {left_out}"),
            Said::Issue(issue) => write!(f, "{}", Fields(issue)),
            Said::Withdrawal(withdrawal) => write!(f, "{}", withdrawal.serial),
        }
    }
}
