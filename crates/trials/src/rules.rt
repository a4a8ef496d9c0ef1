use crate::line::{Making, Question};
use crate::said::Said;
use crate::words::{decode, mask, number};
use sets::{Node, NodeSet};
use std::alloc::{AllocError, Global};
use text::reading::statement_of;
use trust::judging::Judgement;
use trust::node_trust::NodeTrust;
use trust::refusal::Refusal;
use trust::rule::TrustRule;
use trust::sorting::sort;
use trust::statement::Statement;
use trust::threshold::Threshold;

// The rule that a line made.
#[derive(Clone, Copy)]
pub enum Rule {
    Listed(Statement),
    Threshold(Threshold),
}

// A rule that may be judged: a statement.
pub trait Judging: TrustRule {
    fn judgement(&self) -> Option<Judgement>;
}

impl Judging for Statement {
    fn judgement(&self) -> Option<Judgement> {
        Some(self.judge())
    }
}

impl Judging for Threshold {
    fn judgement(&self) -> Option<Judgement> {
        None
    }
}

// One set more for the node of an entry, `F:NODE:MASK` or `Q:NODE:MASK`; None where it cannot be read, or the node has 16.
fn add(trust: &mut [NodeTrust; 16], entry: &str) -> Option<()> {
    let (letter, rest) = entry.split_once(':')?;
    let (node, set) = rest.split_once(':')?;
    let at = number::<usize>(node)?.checked_sub(1)?;
    let set = mask(set)?;
    let node = trust.get_mut(at)?;
    match letter {
        "F" => node.fails.push(set).ok(),
        "Q" => node.quorums.push(set).ok(),
        _ => None,
    }
}

// A rule from a statement. It is no `map`: over a statement that is a form that the prover does not build yet.
fn by_statement<E>(made: Result<Statement, E>) -> Result<Rule, E> {
    match made {
        Ok(statement) => Ok(Rule::Listed(statement)),
        Err(fault) => Err(fault),
    }
}

// A statement made from lists.
fn listed(fields: &[&str]) -> Option<Result<Rule, Refusal>> {
    let (count, entries) = fields.split_first()?;
    let mut trust = [NodeTrust::nothing(); 16];
    for entry in entries {
        add(&mut trust, entry)?;
    }
    Some(by_statement(Statement::new(number(count)?, trust)))
}

fn threshold(fields: &[&str]) -> Option<Result<Rule, Refusal>> {
    let [n, f, q] = fields.as_array::<3>()?;
    Some(Threshold::new(number(n)?, number(f)?, number(q)?).map(Rule::Threshold))
}

// A statement read from a text.
fn read(heap: Global, fields: &[&str]) -> Result<Result<Rule, Said>, AllocError> {
    let [word] = fields else {
        return Ok(Err(Said::Unreadable));
    };
    let Some(bytes) = decode(heap, word)? else {
        return Ok(Err(Said::Unreadable));
    };
    let made = by_statement(statement_of(bytes.as_slice()));
    Ok(made.map_err(|fault| fault.into()))
}

// Makes the rule of a line, or says why there is none.
pub(crate) fn make(
    heap: Global,
    making: Making,
    fields: &[&str],
) -> Result<Result<Rule, Said>, AllocError> {
    let made = match making {
        Making::Text => return read(heap, fields),
        Making::Lists => listed(fields),
        Making::Threshold => threshold(fields),
    };
    Ok(match made {
        Some(made) => made.map_err(Said::Refused),
        None => Err(Said::Unreadable),
    })
}

// A node and a set of nodes, as `NODE MASK`.
fn node_and_set(fields: &[&str]) -> Option<(Node, NodeSet)> {
    let [node, set] = fields.as_array::<2>()?;
    Some((Node(number(node)?), mask(set)?))
}

// What a rule answers; nothing where the fields have not the form of the question.
pub(crate) fn ask<R: Judging>(rule: &R, question: Question, fields: &[&str]) -> Option<Said> {
    match question {
        Question::Judge => fields
            .is_empty()
            .then(|| rule.judgement().map_or(Said::Missing, Said::Judged)),
        Question::Size => fields.is_empty().then(|| Said::Size(rule.size())),
        Question::Sound => fields.is_empty().then(|| Said::Truth(rule.sound())),
        Question::Quorum => {
            let (node, set) = node_and_set(fields)?;
            Some(Said::Truth(rule.holds_quorum(node, set)))
        }
        Question::Kernel => {
            let (node, set) = node_and_set(fields)?;
            Some(Said::Truth(rule.holds_kernel(node, set)))
        }
        Question::Tolerated => {
            let (node, set) = node_and_set(fields)?;
            Some(Said::Truth(rule.tolerated(node, set)))
        }
        Question::Sort => {
            let [faulty] = fields.as_array::<1>()?;
            let sorted = sort(rule, mask(faulty)?);
            Some(sorted.map_or_else(Said::Refused, Said::Sorted))
        }
    }
}
