ghost use Rattle.std.specs.Prelude.{◌≡◌, ℕ, ◌+◌, ◌<◌, ◌≤◌, length, Some, None};
ghost use Rattle.text.specs.Lines.{NextLine};

use crate::fields::run_before;

// A line of a text without its byte 10, its place in the text, and whether byte 10 ends it.
// A flag, and no Option: a line that nothing ends has its bytes and its place too, and the fault names them.
#[derive(Clone, Copy)]
pub(crate) struct Line<'t> {
    pub bytes: &'t [u8],
    pub at: usize,
    pub ended: bool,
}

// A walk over a lent text: where the next line begins, and how many lines were read.
#[derive(Clone, Copy)]
pub(crate) struct Reader<'t> {
    pub text: &'t [u8],
    pub at: usize,
    pub line: usize,
    ghost within: { at ≤ length text.now },
    ghost lines: { line ≤ at },
}

impl<'t> Reader<'t> {
    pub(crate) fn new(text: &'t [u8]) -> Reader<'t>
        ensures { (result.text.now ≡ text.now) × ((result.at ≡ 0) × (result.line ≡ 0)) }
    {
        Reader {
            text,
            at: 0,
            line: 0,
        }
    }

    // The next line, as a part of the text; nothing is copied.
    pub(crate) fn next_line(&mut self) -> Option<Line<'t>>
        ensures text { self.new.text ≡ self.old.text }
        ensures found { elim result [ Some l ↦ NextLine self.old.text.now self.old.at (record { bytes = l.bytes.now; ended = l.ended }) self.new.at × (l.at ≡ self.old.at) × (self.new.line ≡ self.old.line + 1) | None ↦ (self.new ≡ self.old) × (self.old.at ≡ length self.old.text.now) ] }
    {
        if self.at >= self.text.len() {
            return None;
        }
        let at = self.at;
        let rest = &self.text[at..];
        let n = run_before(rest, b'\n');
        let ended = n < rest.len();
        self.at = if ended { at + n + 1 } else { self.text.len() };
        self.line += 1;
        Some(Line {
            bytes: &rest[..n],
            at,
            ended,
        })
    }
}
