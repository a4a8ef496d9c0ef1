ghost use Rattle.std.specs.Prelude.{◌≡◌, ◌∷◌, ◌++◌, IfOk, Some, string_bytes, decimal};
ghost use Rattle.trust.specs.Judging.{Judged};
ghost use Rattle.trust.specs.Statements.{meant};
ghost use Rattle.reports.specs.Judgements.{verdict_words, pair_bytes, yes_bytes, judgement_bytes, SaysJudgement, Judges};

use crate::reporting::{Report, TextReport, report_on};
use sets::Node;
use std::alloc::{AllocError, Global};
use std::fmt;
use trust::judging::Judgement;
use trust::rule::TrustRule;
use trust::statement::Statement;

// Two nodes as they are written.
#[derive(Clone, Copy)]
struct NodePair(Node, Node);

impl fmt::Display for NodePair {
    ghost output = { λ pair. Some (decimal pair.0.0 ++ (32 ∷ decimal pair.1.0)) };

    fn fmt<W: fmt::Write>(&self, f: &mut fmt::Formatter<W>) -> fmt::Result {
        let i = self.0;
        let j = self.1;
        write!(f, "{i} {j}")
    }
}

// A verdict as it is written: all pass, or the first that does not.
#[derive(Clone, Copy)]
struct Verdict<T>(Option<T>);

impl<T: fmt::Display> fmt::Display for Verdict<T> {
    ghost output = { λ verdict. verdict_words T.output verdict.0 };

    fn fmt<W: fmt::Write>(&self, f: &mut fmt::Formatter<W>) -> fmt::Result {
        match &self.0 {
            None => write!(f, "all"),
            Some(first) => write!(f, "fails first at {first}"),
        }
    }
}

fn pairs(failing: Option<(Node, Node)>) -> Verdict<NodePair>
    ensures { verdict_words (λ pair. Some (decimal pair.0.0 ++ (32 ∷ decimal pair.1.0))) result.0 ≡ Some (pair_bytes failing) }
{
    Verdict(failing.map(|(i, j)| NodePair(i, j)))
}

fn yes_or_no(b: bool) -> &'static str
    ensures { result.now ≡ yes_bytes b }
{
    if b { "yes" } else { "no" }
}

// The four lines of a statement's judgement.
fn judgement_text(heap: Global, statement: &Statement) -> Result<String, AllocError>
    ensures { IfOk result (λ out. (j : Judgement) × Judged (meant statement.now) j × (string_bytes out ≡ judgement_bytes (meant statement.now) j)) }
{
    let judgement = statement.judge();
    let b3 = pairs(judgement.b3);
    let consistency = pairs(judgement.consistency);
    let availability = Verdict(judgement.availability);
    let sound = yes_or_no(statement.sound());
    format!(in heap;
        "B3: {b3}\nconsistency: {consistency}\navailability: {availability}\nsound: {sound}\n"
    )
}

// The report of program `judge`: the judgement of a statement.
pub struct Judgements;

impl Report for Judgements {
    ghost says = { SaysJudgement };

    fn of_statement(heap: Global, statement: &Statement) -> Result<String, AllocError> {
        judgement_text(heap, statement)
    }
}

impl TextReport for Judgements {
    fn of_text(heap: Global, text: &[u8]) -> Result<String, AllocError> {
        report_judgement(heap, text)
    }
}

// What program `judge` prints for a statement text.
pub fn report_judgement(heap: Global, text: &[u8]) -> Result<String, AllocError>
    ensures { IfOk result (λ out. Judges text.now (string_bytes out)) }
{
    report_on::<Judgements>(heap, text)
}
