// The tests: each goes through examples.
use crate::cases::{RULES, SMALL};
use crate::order::ORDER;
use checker::judging::judge_text;
use checker::packing::dorwithel_judge;
use checker::records::judge_records;
use checker::refusals::{RecordRefusal, TextRefusal};
use checker::texts::judge_lines;
use rulebook::{Command, Kind, Rule};
use std::process::Abort;
use std::test::Fail;
use trace::board::read_board;
use trace::reading::read_lines;
use trace::writing::write_lines;

// An answer: the refusal's number, 0 where the trace passes; the line, place or count; the rule.
#[derive(Clone, Copy, PartialEq, Debug)]
struct Told {
    number: u8,
    low: Option<usize>,
    rule: Option<u8>,
}

// What is told of text that does not pass.
impl From<TextRefusal> for Told {
    fn from(why: TextRefusal) -> Told {
        Told {
            number: why.number(),
            low: why.place(),
            rule: why.rule().map(Rule::number),
        }
    }
}

// What is told of records that do not pass.
impl From<RecordRefusal> for Told {
    fn from(why: RecordRefusal) -> Told {
        Told {
            number: why.number(),
            low: Some(why.line()),
            rule: why.rule().map(Rule::number),
        }
    }
}

// What is told of so many lines that pass.
fn passes(count: usize) -> Told {
    Told {
        number: 0,
        low: Some(count),
        rule: None,
    }
}

// What is told of a line that breaks a rule.
fn broken_at(line: usize, rule: u8) -> Told {
    Told {
        number: 18,
        low: Some(line),
        rule: Some(rule),
    }
}

// What is told of an answer.
fn told_of<E: Into<Told>>(answer: Result<usize, E>) -> Told {
    answer.map_or_else(|why| why.into(), passes)
}

// The text by its sheet and chip, the records of it and the text written of them are all due this answer.
fn agrees(rt: &impl Abort, sheet_line: &[u8], text: &[u8], due: Told) -> Result<(), Fail> {
    let board = read_board(sheet_line)?;
    assert_eq!(rt; told_of(judge_lines(&board, text)), due);
    let mut lent = [Command::default(); 8];
    let count = read_lines(text, &mut lent)?;
    assert!(rt; count <= 8);
    let records = &lent[..count];
    assert_eq!(rt; told_of(judge_records(&board, records)), due);
    let mut written = [0; 216];
    let lines = write_lines(records, &mut written)?;
    assert!(rt; lines <= 8);
    assert_eq!(rt;
        told_of(judge_text(sheet_line, &written[..27 * lines])),
        due
    );
    Ok(())
}

#[test]
fn each_rule_alone(rt: HostRuntime) {
    for case in &RULES {
        let broken = broken_at(case.line, case.rule);
        assert_eq!(rt; told_of(judge_text(case.sheet_line, case.bad)), broken);
        assert_eq!(rt; dorwithel_judge(case.sheet_line, case.bad), case.packed);
        assert_eq!(rt;
            told_of(judge_text(case.sheet_line, case.good)),
            passes(case.count)
        );
        assert_eq!(rt;
            dorwithel_judge(case.sheet_line, case.good),
            case.count as u64
        );
    }
}

#[test]
fn the_first_reason_is_told(rt: HostRuntime) {
    for case in &ORDER {
        let due = Told {
            number: case.number,
            low: case.low,
            rule: case.rule,
        };
        assert_eq!(rt; told_of(judge_text(case.sheet_line, case.text)), due);
        assert_eq!(rt; dorwithel_judge(case.sheet_line, case.text), case.packed);
    }
}

#[test]
fn records_are_judged_as_their_text(rt: HostRuntime) -> Result<(), Fail> {
    for case in &RULES {
        let broken = broken_at(case.line, case.rule);
        agrees(&rt, case.sheet_line, case.bad, broken)?;
        agrees(&rt, case.sheet_line, case.good, passes(case.count))?;
    }
    agrees(&rt, SMALL, &[], passes(0))
}

// Record 2 of a trace of five is replaced by this one, record 1 gets this cycle, and this answer is due.
struct Replaced {
    record: Command,
    cycle: u32,
    due: Told,
}

// Record 2 is improper.
const AT_TWO: Told = Told {
    number: 17,
    low: Some(2),
    rule: None,
};

const REPLACED: [Replaced; 7] = [
    // a bank of two digits is no matter of rule 2
    Replaced {
        record: Command {
            cycle: 9,
            kind: Kind::Precharge,
            bank: 16,
            row: 0,
            column: 0,
            requester: 0,
            number: 0,
        },
        cycle: 4,
        due: AT_TWO,
    },
    // the same in no later cycle, which would break rule 1
    Replaced {
        record: Command {
            cycle: 4,
            kind: Kind::Precharge,
            bank: 16,
            row: 0,
            column: 0,
            requester: 0,
            number: 0,
        },
        cycle: 4,
        due: AT_TWO,
    },
    // a column of four digits
    Replaced {
        record: Command {
            cycle: 9,
            kind: Kind::Read,
            bank: 0,
            row: 7,
            column: 4_096,
            requester: 0,
            number: 0,
        },
        cycle: 4,
        due: AT_TWO,
    },
    // a requester of two digits
    Replaced {
        record: Command {
            cycle: 9,
            kind: Kind::Read,
            bank: 0,
            row: 7,
            column: 0,
            requester: 16,
            number: 0,
        },
        cycle: 4,
        due: AT_TWO,
    },
    // an activate with a column, of an open bank
    Replaced {
        record: Command {
            cycle: 9,
            kind: Kind::Activate,
            bank: 0,
            row: 7,
            column: 1,
            requester: 0,
            number: 0,
        },
        cycle: 4,
        due: AT_TWO,
    },
    // an earlier broken rule comes first
    Replaced {
        record: Command {
            cycle: 9,
            kind: Kind::Precharge,
            bank: 0,
            row: 1,
            column: 0,
            requester: 0,
            number: 0,
        },
        cycle: 1,
        due: Told {
            number: 18,
            low: Some(1),
            rule: Some(1),
        },
    },
    // proper, so it is judged by the rules: the read at cycle 6 is 3 cycles before
    Replaced {
        record: Command {
            cycle: 9,
            kind: Kind::Precharge,
            bank: 0,
            row: 0,
            column: 0,
            requester: 0,
            number: 0,
        },
        cycle: 6,
        due: Told {
            number: 18,
            low: Some(2),
            rule: Some(14),
        },
    },
];

// A trace that obeys on the small sheet: two requests to one bank at different rows.
const TWO_ROWS: &[u8] =
    b"00000001100007000000000000\n00000004300007010000000000\n00000009200000000100000000\n0000000C100009000100000000\n0000000F400009000100000000\n";

#[test]
fn an_improper_record_breaks_no_rule(rt: HostRuntime) -> Result<(), Fail> {
    let board = read_board(SMALL)?;
    for case in &REPLACED {
        let mut records = [Command::default(); 5];
        assert!(rt; read_lines(TWO_ROWS, &mut records).is_ok());
        assert_eq!(rt; told_of(judge_records(&board, &records)), passes(5));
        records[1].cycle = case.cycle;
        records[2] = case.record;
        assert_eq!(rt; told_of(judge_records(&board, &records)), case.due);
    }
    Ok(())
}
