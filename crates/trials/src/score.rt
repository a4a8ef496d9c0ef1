use crate::line::{Line, UNLIKE};
use crate::said::Said;
use std::fmt;

// What came of the trials so far.
#[derive(Clone, Copy, Default)]
pub struct Score {
    cases: u64,
    answers: u64,
    differ: u64,
}

impl Score {
    pub(crate) fn add_case(&mut self) {
        self.cases = self.cases.saturating_add(1);
    }

    // One more answer, which is printed where it is not as the line says.
    pub(crate) fn note(
        &mut self,
        rt: &(impl Print + AllocGlobal),
        line: &Line<'_>,
        said: Said,
    ) -> anyhow::Result<()> {
        let answer = said.to_string(rt.alloc())?;
        self.answers = self.answers.saturating_add(1);
        let is_same = line.expected == Some(answer.as_str());
        if is_same != line.is_unlike {
            return Ok(());
        }
        self.differ = self.differ.saturating_add(1);
        let mark = if line.is_unlike { UNLIKE } else { "" };
        let expected = line.expected.unwrap_or("");
        println!(rt;
            "line {}: {mark}{} => {answer}, not {expected}",
            line.number, line.step
        )?;
        Ok(())
    }
}

impl fmt::Display for Score {
    fn fmt<W: fmt::Write>(&self, f: &mut fmt::Formatter<W>) -> fmt::Result {
        write!(
            f,
            "{} cases, {} answers, {} differ",
            self.cases, self.answers, self.differ
        )
    }
}
