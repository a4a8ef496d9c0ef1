use crate::calls::Host;
use crate::line::{Line, Making, Verb};
use crate::rules::{Judging, Rule, ask, make};
use crate::said::Said;
use crate::score::Score;
use crate::values::Written;
use crate::words::number;
use kinds::issue::Issue;
use kinds::withdrawal::Withdrawal;

// The kinds of value of a row, with its length.
#[derive(Clone, Copy)]
enum RowOf {
    Issues(u16),
    Withdrawals(u16),
}

// The row of a line `roll KIND LENGTH`.
fn row_of(fields: &[&str]) -> Option<RowOf> {
    let [kind, length] = fields.as_array::<2>()?;
    let length = number(length)?;
    match *kind {
        "issue" => Some(RowOf::Issues(length)),
        "withdrawal" => Some(RowOf::Withdrawals(length)),
        _ => None,
    }
}

// A run of trials: where it prints what differs, and what came of it so far.
#[derive(Drop)]
struct Run<'p, P> {
    rt: &'p P,
    score: Score,
}

impl<P: Print + AllocGlobal> Run<'_, P> {
    fn note(&mut self, line: &Line<'_>, said: Said) -> anyhow::Result<()> {
        self.score.note(self.rt, line, said)
    }

    // Plays lines by what a verb with its fields is answered, which is nothing where they cannot be read.
    // A roll among them has no rule: it gives no row, and has no answer.
    fn play_lines<F: FnMut(Verb, &[&str]) -> Option<Said>>(
        &mut self,
        lines: &[Line<'_>],
        mut answer: F,
    ) -> anyhow::Result<()>
        requires { F.IsAlwaysCallable answer }
    {
        for line in lines {
            let fields = line.fields(self.rt.alloc())?;
            let said = match line.verb {
                Some(Verb::Roll) => continue,
                Some(verb) => answer(verb, fields.as_slice()),
                None => None,
            };
            self.note(line, said.unwrap_or(Said::Unreadable))?;
        }
        Ok(())
    }

    // Not by `play_lines`: the fields of a line are of no account here, and a line may be long.
    fn play_without_rule(&mut self, lines: &[Line<'_>]) -> anyhow::Result<()> {
        for line in lines {
            match line.verb {
                Some(Verb::Roll) => {}
                Some(Verb::Ask(_) | Verb::Row(_)) => self.note(line, Said::Missing)?,
                Some(Verb::Case | Verb::Make(_)) | None => self.note(line, Said::Unreadable)?,
            }
        }
        Ok(())
    }

    fn play_without_row<R: Judging>(&mut self, rule: &R, lines: &[Line<'_>]) -> anyhow::Result<()> {
        self.play_lines(lines, |verb, fields| match verb {
            Verb::Ask(question) => ask(rule, question, fields),
            Verb::Row(_) => Some(Said::Missing),
            Verb::Case | Verb::Make(_) | Verb::Roll => None,
        })
    }

    fn play_with_row<R: Judging, V: Written>(
        &mut self,
        rule: &R,
        length: u16,
        lines: &[Line<'_>],
    ) -> anyhow::Result<()> {
        let mut host = Host::<R, V>::new(self.rt.alloc(), rule, length)?;
        self.play_lines(lines, |verb, fields| match verb {
            Verb::Ask(question) => ask(rule, question, fields),
            Verb::Row(verb) => host.answer(verb, fields),
            Verb::Case | Verb::Make(_) | Verb::Roll => None,
        })
    }

    // Plays a part that begins with the line of its row.
    fn play_row<R: Judging>(
        &mut self,
        rule: &R,
        first: &Line<'_>,
        rest: &[Line<'_>],
    ) -> anyhow::Result<()> {
        let fields = first.fields(self.rt.alloc())?;
        match row_of(fields.as_slice()) {
            Some(RowOf::Issues(length)) => self.play_with_row::<R, Issue>(rule, length, rest),
            Some(RowOf::Withdrawals(length)) => {
                self.play_with_row::<R, Withdrawal>(rule, length, rest)
            }
            None => {
                self.note(first, Said::Unreadable)?;
                self.play_without_row(rule, rest)
            }
        }
    }

    // Plays lines that have a rule, row by row.
    fn play_rows<R: Judging>(&mut self, rule: &R, lines: &[Line<'_>]) -> anyhow::Result<()> {
        for part in lines.chunk_by(|_, next| !next.begins_row()) {
            match part.split_first() {
                Some((first, rest)) if first.begins_row() => self.play_row(rule, first, rest)?,
                _ => self.play_without_row(rule, part)?,
            }
        }
        Ok(())
    }

    // Plays a part that begins with the line of its rule.
    fn play_rule(
        &mut self,
        making: Making,
        first: &Line<'_>,
        rest: &[Line<'_>],
    ) -> anyhow::Result<()> {
        let fields = first.fields(self.rt.alloc())?;
        let made = make(self.rt.alloc(), making, fields.as_slice())?;
        match made {
            Ok(rule) => {
                self.note(first, Said::Made)?;
                self.play_by(rule, rest)
            }
            Err(said) => {
                self.note(first, said)?;
                self.play_without_rule(rest)
            }
        }
    }

    // Plays the lines after the line of a rule.
    fn play_by(&mut self, rule: Rule, rest: &[Line<'_>]) -> anyhow::Result<()> {
        match rule {
            Rule::Listed(statement) => self.play_rows(&statement, rest),
            Rule::Threshold(threshold) => self.play_rows(&threshold, rest),
        }
    }

    // Plays a part that has at most one rule, which its first line then gives.
    fn play_part(&mut self, part: &[Line<'_>]) -> anyhow::Result<()> {
        let Some((first, rest)) = part.split_first() else {
            return Ok(());
        };
        match first.verb {
            Some(Verb::Case) => {
                self.score.add_case();
                self.play_without_rule(rest)
            }
            Some(Verb::Make(making)) => self.play_rule(making, first, rest),
            Some(Verb::Ask(_) | Verb::Roll | Verb::Row(_)) | None => self.play_without_rule(part),
        }
    }
}

// Plays the lines of a file, rule by rule.
pub(crate) fn play(rt: &(impl Print + AllocGlobal), lines: &[Line<'_>]) -> anyhow::Result<Score> {
    let mut run = Run {
        rt,
        score: Score::default(),
    };
    for part in lines.chunk_by(|_, next| !next.begins_rule()) {
        run.play_part(part)?;
    }
    Ok(run.score)
}
