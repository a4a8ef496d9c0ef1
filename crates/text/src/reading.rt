ghost use Rattle.std.specs.Prelude.{◌≡◌, Ok, Err};
ghost use Rattle.text.specs.Outcomes.{Accepts, Refuses};

use crate::draft::Draft;
use crate::reader::Reader;
use trust::refusal::Refusal;
use trust::statement::Statement;

// Why a text is refused, and where: the line's number from 1, and the line as a part of the caller's own text, with its place there.
#[derive(Clone, Copy)]
pub struct Fault<'t> {
    pub refusal: Refusal,
    pub line: usize,
    pub part: &'t [u8],
    pub at: usize,
}

// Reads a text into a statement that the caller keeps, in place. A refused text leaves the statement as it was.
pub fn read_statement<'t>(text: &'t [u8], statement: &mut Statement) -> Result<(), Fault<'t>>
    ensures { elim result [ Ok _ ↦ Accepts text.now statement.new | Err f ↦ Refuses text.now f.refusal f.line f.at f.part.now × (statement.new ≡ statement.old) ] }
{
    let mut draft = Draft::empty();
    let mut reader = Reader::new(text);
    while let Some(line) = reader.next_line() {
        draft.take(line).map_err(|refusal| Fault {
            refusal,
            line: reader.line,
            part: line.bytes,
            at: line.at,
        })?;
    }
    draft.finish(statement).map_err(|refusal| Fault {
        refusal,
        line: reader.line + 1,
        part: &text[text.len()..],
        at: text.len(),
    })
}

// The statement that a text gives, or the fault of its first bad line. Made in place: a Result with a statement costs a short text as much as its reading.
pub fn statement_of(text: &[u8]) -> Result<Statement, Fault<'_>>
    ensures { elim result [ Ok s ↦ Accepts text.now s | Err f ↦ Refuses text.now f.refusal f.line f.at f.part.now ] }
{
    let mut statement = Statement::fresh();
    read_statement(text, &mut statement)?;
    Ok(statement)
}
