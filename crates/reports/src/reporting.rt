ghost use Rattle.std.specs.Prelude.{◌≡◌, ℕ, List, IfOk, string_bytes};
ghost use Rattle.trust.specs.Refusals.{refusal_number};
ghost use Rattle.trust.specs.declared.statement.Statement.{Statement};
ghost use Rattle.reports.specs.Written.{refused_bytes};
ghost use Rattle.reports.specs.Reporting.{ReportsOn};

use std::alloc::{AllocError, Global};
use std::io::Read;
use text::reading::statement_of;
use trust::refusal::Refusal;
use trust::statement::Statement;

// What a report writes of a statement.
pub trait Report {
    ghost says: { Statement → List ℕ → Type 0 };

    fn of_statement(heap: Global, statement: &Statement) -> Result<String, AllocError>
        ensures { IfOk result (λ out. says statement.now (string_bytes out)) };
}

// What a program writes of a text. A report whose promise has a function of its own name gives that here, so that the program runs it.
pub trait TextReport: Report {
    fn of_text(heap: Global, text: &[u8]) -> Result<String, AllocError>
        ensures { IfOk result (λ out. ReportsOn Self.says text.now (string_bytes out)) }
    {
        report_on::<Self>(heap, text)
    }
}

// The one line of a refusal.
pub(crate) fn refused_line(
    heap: Global,
    refusal: Refusal,
    line: usize,
) -> Result<String, AllocError>
    ensures { IfOk result (λ out. string_bytes out ≡ refused_bytes (refusal_number refusal) line) }
{
    format!(in heap; "{refusal} {line}\n")
}

// The report on the statement that a text gives, or the line of the text's refusal.
pub fn report_on<R: Report>(heap: Global, text: &[u8]) -> Result<String, AllocError>
    ensures { IfOk result (λ out. ReportsOn R.says text.now (string_bytes out)) }
{
    match statement_of(text) {
        Ok(statement) => R::of_statement(heap, &statement),
        Err(fault) => refused_line(heap, fault.refusal, fault.line),
    }
}

// What a program writes of a text.
pub fn report_on_text<R: TextReport>(heap: Global, text: &[u8]) -> Result<String, AllocError>
    ensures { IfOk result (λ out. ReportsOn R.says text.now (string_bytes out)) }
{
    R::of_text(heap, text)
}

// Reads a text from standard input: the report on it. No clause can say which text is read.
pub fn report_on_input<R: Report>(rt: &(impl Input + AllocGlobal)) -> anyhow::Result<String>
    ensures { IfOk result (λ out. (text : List ℕ) × ReportsOn R.says text (string_bytes out)) }
{
    let mut text = Vec::new(rt.alloc());
    rt.reader().read_to_end(&mut text)?;
    Ok(report_on::<R>(rt.alloc(), text.as_slice())?)
}

// Reads a text to its end: what a program writes of it. No clause can say which text is read.
pub fn report_on_reader<R: TextReport>(
    rt: &impl AllocGlobal,
    input: &mut impl Read,
) -> anyhow::Result<String>
    ensures { IfOk result (λ out. (text : List ℕ) × ReportsOn R.says text (string_bytes out)) }
{
    let mut text = Vec::new(rt.alloc());
    input.read_to_end(&mut text)?;
    Ok(report_on_text::<R>(rt.alloc(), text.as_slice())?)
}
