// What is refused, in which order, and that nothing is altered then.
use crate::listing::{COMMANDS, TEXT};
use crate::told::{INK, MARK, check_each, read_told, write_told};
use rulebook::command::Command;
use std::process::Abort;
use trace::reading::read_lines;
use trace::writing::write_lines;

// What reading into these records answers, none of which may be altered.
fn read_marked(rt: &impl Abort, text: &[u8], records: &mut [Command]) -> (u8, Option<usize>) {
    let answer = read_told(read_lines(text, records));
    check_each(rt, records, MARK);
    answer
}

// The same with so many records lent.
fn read_refused(rt: &impl Abort, text: &[u8], lent: usize) -> (u8, Option<usize>) {
    let mut records = [MARK; 6];
    assert!(rt; lent <= 6);
    read_marked(rt, text, &mut records[0..lent])
}

#[test]
fn broken_text_is_refused(rt: HostRuntime) {
    for (bytes, lent, number, line) in [
        (0, 0, 0, Some(0)),
        (0, 6, 0, Some(0)),
        (1, 0, 15, None),
        (1, 1, 16, Some(0)),
        (26, 0, 15, None),
        (26, 1, 16, Some(0)),
        (28, 1, 15, None),
        (28, 2, 16, Some(1)),
        (134, 4, 15, None),
        (134, 5, 16, Some(4)),
    ] {
        assert!(rt; bytes <= 135);
        assert_eq!(rt; read_refused(&rt, &TEXT[0..bytes], lent), (number, line));
    }
    let mut unfed = TEXT;
    unfed[26] = b'0';
    assert_eq!(rt; read_refused(&rt, &unfed[0..27], 1), (16, Some(0)));
    assert_eq!(rt; read_refused(&rt, b"\n", 1), (16, Some(0)));
}

#[test]
fn the_first_malformed_line_is_told(rt: HostRuntime) {
    let mut text = TEXT;
    text[134] = b'0';
    assert_eq!(rt; read_refused(&rt, &text, 6), (16, Some(4)));
    text[81] = b'a';
    assert_eq!(rt; read_refused(&rt, &text, 6), (16, Some(3)));
    text[35] = b'5';
    assert_eq!(rt; read_refused(&rt, &text, 5), (16, Some(1)));
    assert_eq!(rt; read_refused(&rt, &text, 4), (15, None));
    assert_eq!(rt; read_refused(&rt, &text, 0), (15, None));
}

#[test]
fn the_first_improper_record_is_told(rt: HostRuntime) {
    let mut out = [INK; 138];
    let mut commands = COMMANDS;
    commands[4].bank = 16;
    assert_eq!(rt; write_told(write_lines(&commands, &mut out)), (17, Some(4)));
    commands[2].row = 7;
    assert_eq!(rt; write_told(write_lines(&commands, &mut out)), (17, Some(2)));
    check_each(&rt, &out, INK);
    let mut short = [INK; 134];
    assert_eq!(rt; write_told(write_lines(&commands, &mut short)), (15, None));
    check_each(&rt, &short, INK);
}

#[test]
fn a_short_buffer_is_refused(rt: HostRuntime) {
    let mut out = [INK; 134];
    assert_eq!(rt; write_told(write_lines(&COMMANDS, &mut out)), (15, None));
    assert_eq!(rt;
        write_told(write_lines(&COMMANDS[0..1], &mut out[0..26])),
        (15, None)
    );
    assert_eq!(rt;
        write_told(write_lines(&COMMANDS[0..1], &mut [])),
        (15, None)
    );
    assert_eq!(rt; write_told(write_lines(&[], &mut out)), (0, Some(0)));
    assert_eq!(rt; write_told(write_lines(&[], &mut [])), (0, Some(0)));
    check_each(&rt, &out, INK);
}
