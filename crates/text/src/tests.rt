use crate::reading::read_statement;
use trust::rule::TrustRule;
use trust::statement::Statement;

// A damaged text, and its fault: the number, the line, the place and the length of the part.
#[derive(Clone, Copy)]
struct Damaged {
    text: &'static [u8],
    number: u8,
    line: usize,
    at: usize,
    part: usize,
}

fn is_refused(case: &Damaged) -> bool {
    let mut statement = Statement::fresh();
    match read_statement(case.text, &mut statement) {
        Ok(()) => false,
        Err(fault) => {
            u8::from(fault.refusal) == case.number
                && fault.line == case.line
                && fault.at == case.at
                && fault.part.len() == case.part
                && statement.size() == 1
        }
    }
}

// Each number at the first, a middle and the last line, where it can stand there, and both faults that only the end shows.
#[test]
fn damaged_texts_are_refused(rt: HostRuntime) {
    let cases = [
        Damaged {
            text: b"",
            number: 3,
            line: 1,
            at: 0,
            part: 0,
        },
        Damaged {
            text: b"\n",
            number: 1,
            line: 1,
            at: 0,
            part: 0,
        },
        Damaged {
            text: b"Z\n",
            number: 1,
            line: 1,
            at: 0,
            part: 1,
        },
        Damaged {
            text: b"N\t00\n",
            number: 1,
            line: 1,
            at: 0,
            part: 4,
        },
        Damaged {
            text: b"N\t100\n",
            number: 1,
            line: 1,
            at: 0,
            part: 5,
        },
        Damaged {
            text: b"N\t1\nZ\nF\t1\t0000\n",
            number: 1,
            line: 2,
            at: 4,
            part: 1,
        },
        Damaged {
            text: b"N\t1\nF\t1\t0000",
            number: 1,
            line: 2,
            at: 4,
            part: 8,
        },
        Damaged {
            text: b"N\t0\n",
            number: 2,
            line: 1,
            at: 0,
            part: 3,
        },
        Damaged {
            text: b"N\t17\n",
            number: 2,
            line: 1,
            at: 0,
            part: 4,
        },
        Damaged {
            text: b"N\t2\nF\t3\t0000\nF\t1\t0000\n",
            number: 2,
            line: 2,
            at: 4,
            part: 8,
        },
        Damaged {
            text: b"N\t2\nF\t1\t0000\nF\t2\t0004\n",
            number: 2,
            line: 3,
            at: 13,
            part: 8,
        },
        Damaged {
            text: b"F\t1\t0000\n",
            number: 3,
            line: 1,
            at: 0,
            part: 8,
        },
        Damaged {
            text: b"N\t2\nN\t2\nF\t1\t0000\n",
            number: 3,
            line: 2,
            at: 4,
            part: 3,
        },
        Damaged {
            text: b"N\t2\nF\t1\t0000\nF\t1\t0000\n",
            number: 3,
            line: 3,
            at: 13,
            part: 8,
        },
        Damaged {
            text: b"N\t5\nF\t1\t0000\nF\t1\t0001\nF\t1\t0002\nF\t1\t0003\nF\t1\t0004\nF\t1\t0005\nF\t1\t0006\nF\t1\t0007\nF\t1\t0008\nF\t1\t0009\nF\t1\t000a\nF\t1\t000b\nF\t1\t000c\nF\t1\t000d\nF\t1\t000e\nF\t1\t000f\nF\t1\t0010\nF\t2\t0000\n",
            number: 4,
            line: 18,
            at: 148,
            part: 8,
        },
        Damaged {
            text: b"N\t5\nF\t1\t0000\nF\t1\t0001\nF\t1\t0002\nF\t1\t0003\nF\t1\t0004\nF\t1\t0005\nF\t1\t0006\nF\t1\t0007\nF\t1\t0008\nF\t1\t0009\nF\t1\t000a\nF\t1\t000b\nF\t1\t000c\nF\t1\t000d\nF\t1\t000e\nF\t1\t000f\nF\t1\t0010\n",
            number: 4,
            line: 18,
            at: 148,
            part: 8,
        },
        Damaged {
            text: b"N\t1\n",
            number: 5,
            line: 2,
            at: 4,
            part: 0,
        },
        Damaged {
            text: b"N\t3\nF\t1\t0000\nF\t3\t0000\n",
            number: 5,
            line: 4,
            at: 22,
            part: 0,
        },
        Damaged {
            text: b"N\t3\nF\t1\t0000\nF\t3\t0000\nZ\n",
            number: 1,
            line: 4,
            at: 22,
            part: 1,
        },
    ];
    for case in cases.iter() {
        assert!(rt; is_refused(case));
    }
}

#[test]
fn a_text_without_quorums_is_read(rt: HostRuntime) {
    let mut statement = Statement::fresh();
    let read = read_statement(b"N\t2\nF\t1\t0000\nF\t2\t0001\n", &mut statement);
    assert!(rt; read.is_ok() && statement.size() == 2);
}
