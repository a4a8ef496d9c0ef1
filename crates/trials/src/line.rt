use std::alloc::{AllocError, Global};

// What makes a rule.
#[derive(Clone, Copy)]
pub enum Making {
    Text,
    Lists,
    Threshold,
}

// What a rule is asked.
#[derive(Clone, Copy)]
pub enum Question {
    Judge,
    Size,
    Sound,
    Quorum,
    Kernel,
    Tolerated,
    Sort,
}

// A call of an open panel.
#[derive(Clone, Copy)]
pub enum Call {
    Propose,
    Forge,
    Hand,
}

// A reading of an open panel.
#[derive(Clone, Copy)]
pub enum Reading {
    Receipt,
    Counts,
    Tally,
}

// What is done with a row.
#[derive(Clone, Copy)]
pub enum RowVerb {
    Open,
    Place,
    Call(Call),
    Read(Reading),
}

// What a line asks for: questions need a rule, and what is done with a row needs a row.
#[derive(Clone, Copy)]
pub enum Verb {
    Case,
    Make(Making),
    Ask(Question),
    Roll,
    Row(RowVerb),
}

// What stands before a step whose answer must not be the one written: it shows that a run sees a wrong answer.
pub(crate) const UNLIKE: &str = "unlike ";

// A line of a trial file that says something: its number, what it asks for, the step, and the answer that is written beside it.
#[derive(Clone, Copy)]
pub struct Line<'t> {
    pub number: usize,
    // The answer must not be the one written.
    pub is_unlike: bool,
    // None where the line cannot be read.
    pub verb: Option<Verb>,
    pub step: &'t str,
    pub expected: Option<&'t str>,
}

impl Verb {
    fn from_word(word: &str) -> Option<Verb> {
        Some(match word {
            "case" => Verb::Case,
            "text" => Verb::Make(Making::Text),
            "lists" => Verb::Make(Making::Lists),
            "threshold" => Verb::Make(Making::Threshold),
            "judge" => Verb::Ask(Question::Judge),
            "size" => Verb::Ask(Question::Size),
            "sound" => Verb::Ask(Question::Sound),
            "quorum" => Verb::Ask(Question::Quorum),
            "kernel" => Verb::Ask(Question::Kernel),
            "tolerated" => Verb::Ask(Question::Tolerated),
            "sort" => Verb::Ask(Question::Sort),
            "roll" => Verb::Roll,
            "open" => Verb::Row(RowVerb::Open),
            "place" => Verb::Row(RowVerb::Place),
            "propose" => Verb::Row(RowVerb::Call(Call::Propose)),
            "forge" => Verb::Row(RowVerb::Call(Call::Forge)),
            "hand" => Verb::Row(RowVerb::Call(Call::Hand)),
            "receipt" => Verb::Row(RowVerb::Read(Reading::Receipt)),
            "counts" => Verb::Row(RowVerb::Read(Reading::Counts)),
            "tally" => Verb::Row(RowVerb::Read(Reading::Tally)),
            _ => return None,
        })
    }

    // The verb of a step is its first field.
    fn of_step(step: &str) -> Option<Verb> {
        Verb::from_word(step.split_once(' ').map_or(step, |(word, _)| word))
    }
}

impl<'t> Line<'t> {
    fn new(number: usize, text: &'t str) -> Line<'t> {
        match text.strip_prefix(UNLIKE) {
            Some(rest) => Line::marked(number, true, rest),
            None => Line::marked(number, false, text),
        }
    }

    // Only a case and a roll stand without an answer.
    fn marked(number: usize, is_unlike: bool, text: &'t str) -> Line<'t> {
        match text.split_once(" => ") {
            Some((step, expected)) => Line {
                number,
                is_unlike,
                verb: Verb::of_step(step),
                step,
                expected: Some(expected),
            },
            None => Line {
                number,
                is_unlike,
                verb: Verb::of_step(text).filter(|verb| matches!(verb, Verb::Case | Verb::Roll)),
                step: text,
                expected: None,
            },
        }
    }

    // The fields of the step after the first.
    pub(crate) fn fields(&self, heap: Global) -> Result<Vec<&'t str>, AllocError> {
        self.step.split(' ').skip(1).collect(heap)
    }

    // A file is cut into parts of which each has at most one rule, which its first line gives.
    pub(crate) fn begins_rule(&self) -> bool {
        matches!(self.verb, Some(Verb::Case | Verb::Make(_)))
    }

    // Such a part is cut into parts of which each has at most one row, which its first line gives.
    pub(crate) fn begins_row(&self) -> bool {
        matches!(self.verb, Some(Verb::Roll))
    }
}

// The lines of a file that are neither empty nor remarks.
pub(crate) fn lines_of(heap: Global, file: &str) -> Result<Vec<Line<'_>>, AllocError> {
    file.split('\n')
        .enumerate()
        .filter(|(_, text)| !text.is_empty() && !text.starts_with('#'))
        .map(|(i, text)| Line::new(i.saturating_add(1), text))
        .collect(heap)
}
