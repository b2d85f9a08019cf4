// The tests: each goes through examples.
use crate::cases::{Case, EDGES, RULES, SMALL, TWO_ROWS};
use crate::judging::{board_of, first_refused};
use rulebook::{Book, Kind, UnknownKind};
use std::process::Abort;
use std::test::Fail;

// The lines before are taken, the bad one is refused by its rule and leaves the book as it was, and the good one is taken.
fn stands(rt: &impl Abort, case: &Case) -> Result<(), Fail> {
    let board = board_of(&case.sheet, case.banks)?;
    let mut book = Book::new();
    assert_eq!(rt; first_refused(&mut book, &board, case.before), None);
    assert_eq!(rt;
        first_refused(&mut book, &board, &[case.bad]),
        Some((0, case.rule))
    );
    assert_eq!(rt; first_refused(&mut book, &board, &[case.good]), None);
    Ok(())
}

#[test]
fn each_rule_alone(rt: HostRuntime) -> Result<(), Fail> {
    RULES.iter().try_for_each(|case| stands(&rt, case))
}

#[test]
fn edges(rt: HostRuntime) -> Result<(), Fail> {
    EDGES.iter().try_for_each(|case| stands(&rt, case))
}

#[test]
fn a_bank_is_open_at_its_row(rt: HostRuntime) -> Result<(), Fail> {
    let board = board_of(&SMALL, 8)?;
    let mut book = Book::new();
    assert_eq!(rt; book.open_row(0), None);
    assert_eq!(rt; first_refused(&mut book, &board, &TWO_ROWS[..2]), None);
    assert_eq!(rt; book.open_row(0), Some(7));
    assert_eq!(rt; book.open_row(1), None);
    assert_eq!(rt; first_refused(&mut book, &board, &TWO_ROWS[2..3]), None);
    assert_eq!(rt; book.open_row(0), None);
    assert_eq!(rt; first_refused(&mut book, &board, &TWO_ROWS[3..]), None);
    assert_eq!(rt; book.open_row(0), Some(9));
    assert_eq!(rt; book.open_row(16), None);
    Ok(())
}

#[test]
fn kinds_by_number(rt: HostRuntime) {
    for number in 0..6 {
        match Kind::try_from(number) {
            Ok(kind) => assert_eq!(rt; kind.number(), number),
            Err(unknown) => assert_eq!(rt; unknown, UnknownKind(5)),
        }
    }
}
