ghost use Rattle.std.specs.Prelude.{◌≡◌, List, IfOk, string_bytes, decimal};

use crate::guilds::Guilds;
use crate::reporting::{
    Report, TextReport, report_on, report_on_input, report_on_reader, report_on_text,
};
use std::alloc::{AllocError, Allocator, Global};
use std::fmt::Write;
use std::io;
use std::io::{BufRead, ErrorKind, Input, Lines, Read};
use std::test::Fail;
use trust::rule::TrustRule;
use trust::statement::Statement;

const TEXT: &[u8] =
    b"N\t5\nF\t1\t0018\nF\t2\t0018\nF\t3\t0018\nF\t4\t0001\nF\t4\t0010\nF\t5\t0002\nF\t5\t0008\n";

const TABLE: &str =
    "faulty wise naive guild\n0000 001f 0000 001f\n0001 0008 0016 0000\n0002 0010 000d 0000\n0004 0000 001b 0000\n0008 0017 0000 0017\n0010 000f 0000 000f\n";

// Eighty lines that are taken, and then one that is not.
fn long_text(heap: Global) -> Result<String, AllocError> {
    let mut text = String::from_str(heap, "N\t5\n")?;
    for node in 1..=5u32 {
        for mask in 1..=16u32 {
            writeln!(text, "F\t{node}\t{mask:04x}")?;
        }
    }
    writeln!(text, "Z")?;
    Ok(text)
}

// A reader of a text, whose reading fails at the end of it where `fails` says so.
#[derive(Clone, Copy)]
struct Given<'t> {
    text: &'t [u8],
    fails: bool,
}

impl Read for Given<'_> {
    fn read(&mut self, buf: &mut [u8]) -> io::Result<usize> {
        if self.fails && self.text.is_empty() {
            return Err(io::Error::from(ErrorKind::Other));
        }
        self.text.read(buf)
    }
}

impl BufRead for Given<'_> {
    fn fill_buf(&mut self) -> io::Result<&[u8]> {
        if self.fails && self.text.is_empty() {
            return Err(io::Error::from(ErrorKind::Other));
        }
        Ok(self.text)
    }

    fn consume(&mut self, amount: usize) {
        self.text.consume(amount);
    }
}

// A host whose standard input it is.
#[derive(Clone, Copy)]
struct Host<'t>(Given<'t>);

impl<'t> Input for Host<'t> {
    type Reader = Given<'t>;

    fn read_line<A: Allocator + Clone>(&self, buf: &mut String<A>) -> io::Result<usize> {
        self.reader().read_line(buf)
    }

    fn lines<A: Allocator>(&self, alloc: A) -> Lines<Given<'t>, A> {
        self.reader().lines(alloc)
    }

    fn reader(&self) -> Given<'t> {
        self.0
    }
}

// A report of one's own, which gives what `Report` asks for and no more: the number of nodes.
struct Nodes;

impl Report for Nodes {
    ghost says = { λ s out. out ≡ decimal s.nodes };

    fn of_statement(heap: Global, statement: &Statement) -> Result<String, AllocError> {
        let n = statement.size();
        format!(in heap; "{n}")
    }
}

// The same as a program may write it.
struct Written;

impl Report for Written {
    ghost says = { λ s out. out ≡ decimal s.nodes };

    fn of_statement(heap: Global, statement: &Statement) -> Result<String, AllocError> {
        Nodes::of_statement(heap, statement)
    }
}

impl TextReport for Written {}

#[test]
fn a_text_is_reported_on(rt: HostRuntime) -> Result<(), Fail> {
    let long = long_text(rt.alloc())?;
    let cases = [
        (TEXT, "5", TABLE),
        (b"".as_slice(), "refused 3 1\n", "refused 3 1\n"),
        (long.as_bytes(), "refused 1 82\n", "refused 1 82\n"),
    ];
    for (text, count, table) in cases {
        let mut input = Given { text, fails: false };
        let host = (Host(input), rt.alloc());
        assert_eq!(rt; report_on::<Nodes>(rt.alloc(), text)?.as_str(), count);
        assert_eq!(rt;
            report_on_text::<Written>(rt.alloc(), text)?.as_str(),
            count
        );
        assert_eq!(rt; report_on_input::<Nodes>(&host)?.as_str(), count);
        assert_eq!(rt; report_on_input::<Guilds>(&host)?.as_str(), table);
        assert_eq!(rt;
            report_on_reader::<Guilds>(&rt, &mut input)?.as_str(),
            table
        );
    }
    Ok(())
}

// What could not be read to its end is not reported on.
#[test]
fn a_failed_read_is_no_report(rt: HostRuntime) {
    for text in [TEXT, b"".as_slice()] {
        let mut input = Given { text, fails: true };
        let host = (Host(input), rt.alloc());
        assert!(rt; report_on_input::<Nodes>(&host).is_err());
        assert!(rt; report_on_reader::<Guilds>(&rt, &mut input).is_err());
    }
}
