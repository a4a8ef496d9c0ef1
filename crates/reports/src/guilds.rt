ghost use Rattle.std.specs.Prelude.{◌≡◌, true, ◌++◌, IfOk, string_bytes, OnOk};
ghost use Rattle.sets.specs.Sets.{set?};
ghost use Rattle.trust.specs.Trust.{sound};
ghost use Rattle.reports.specs.Guilds.{row_of, table_of, SaysTable, Reports};

use crate::reporting::{Report, TextReport, refused_line, report_on};
use crate::written::Row;
use sets::{Node, NodeSet};
use std::alloc::{AllocError, Global};
use std::fmt::Write;
use trust::refusal::Refusal;
use trust::rule::TrustRule;
use trust::sorting::sort;
use trust::statement::Statement;

// Adds the row of one faulty set of the rule's nodes.
fn add_row<R: TrustRule>(out: &mut String, rule: &R, faulty: NodeSet) -> Result<(), AllocError>
    requires { set? (R.meaning rule.now).size faulty.0 ≡ true }
    ensures { OnOk result (string_bytes out.new ≡ string_bytes out.old ++ row_of (R.meaning rule.now) faulty.0) }
{
    let sorted = sort(rule, faulty).unwrap();
    let row = Row { faulty, sorted };
    write!(out, "{row}")
}

// The table of a rule, or the refusal of one that is not sound.
fn table<R: TrustRule>(heap: Global, rule: &R) -> Result<String, AllocError>
    ensures { IfOk result (λ out. string_bytes out ≡ table_of (R.meaning rule.now)) }
{
    if !rule.sound() {
        return refused_line(heap, Refusal::Unsound, 0);
    }
    let mut out = String::from_str(heap, "faulty wise naive guild\n")?;
    add_row(&mut out, rule, NodeSet(0))?;
    for k in 0..rule.size() {
        add_row(&mut out, rule, NodeSet(0).with(Node(k + 1)))?;
    }
    Ok(out)
}

// The report of program `guilds`: the table of a statement.
pub struct Guilds;

impl Report for Guilds {
    ghost says = { SaysTable };

    fn of_statement(heap: Global, statement: &Statement) -> Result<String, AllocError> {
        table(heap, statement)
    }
}

impl TextReport for Guilds {
    fn of_text(heap: Global, text: &[u8]) -> Result<String, AllocError> {
        report(heap, text)
    }
}

// What program `guilds` prints for a statement text. This and `report_judgement` stay beside `report_on` for their callers outside: each promise is known by its name.
pub fn report(heap: Global, text: &[u8]) -> Result<String, AllocError>
    ensures { IfOk result (λ out. Reports text.now (string_bytes out)) }
{
    report_on::<Guilds>(heap, text)
}
