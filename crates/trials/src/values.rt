use crate::said::Said;
use crate::words::number;
use kinds::issue::Issue;
use kinds::withdrawal::Withdrawal;
use runs::value::ValueKind;

// A kind of value as a trial file writes it.
pub trait Written: ValueKind + Copy + Default + Into<Said> {
    fn read(word: &str) -> Option<Self>;
}

impl Written for Issue {
    // Six numbers, separated by commas.
    fn read(word: &str) -> Option<Issue> {
        let mut fields = word.split(',');
        let issue = Issue {
            account: number(fields.next()?)?,
            device: number(fields.next()?)?,
            request: number(fields.next()?)?,
            key_print: number(fields.next()?)?,
            start: number(fields.next()?)?,
            end: number(fields.next()?)?,
        };
        fields.next().is_none().then_some(issue)
    }
}

impl Written for Withdrawal {
    fn read(word: &str) -> Option<Withdrawal> {
        Some(Withdrawal {
            serial: number(word)?,
        })
    }
}
