// A whole listing: two requests of two requesters to one bank, read and written.
use crate::told::{INK, MARK, check_each, read_told, write_told};
use rulebook::command::{Command, Kind};
use trace::cutting::{line_at, line_count};
use trace::line::{is_proper, read_line};
use trace::reading::read_lines;
use trace::writing::write_lines;

// The listing as text.
pub(crate) const TEXT: [u8; 135] =
    *b"00000001100007000000000000\n00000004300007010000000000\n00000009200000000100000000\n0000000C100009000100000000\n0000000F400009000100000000\n";

// The listing as commands.
pub(crate) const COMMANDS: [Command; 5] = [
    Command {
        cycle: 1,
        kind: Kind::Activate,
        bank: 0,
        row: 7,
        column: 0,
        requester: 0,
        number: 0,
    },
    Command {
        cycle: 4,
        kind: Kind::Read,
        bank: 0,
        row: 7,
        column: 16,
        requester: 0,
        number: 0,
    },
    Command {
        cycle: 9,
        kind: Kind::Precharge,
        bank: 0,
        row: 0,
        column: 0,
        requester: 1,
        number: 0,
    },
    Command {
        cycle: 12,
        kind: Kind::Activate,
        bank: 0,
        row: 9,
        column: 0,
        requester: 1,
        number: 0,
    },
    Command {
        cycle: 15,
        kind: Kind::Write,
        bank: 0,
        row: 9,
        column: 0,
        requester: 1,
        number: 0,
    },
];

#[test]
fn the_listing_is_read(rt: HostRuntime) {
    let mut records = [MARK; 7];
    assert_eq!(rt; read_told(read_lines(&TEXT, &mut records)), (0, Some(5)));
    assert_eq!(rt; &records[0..5], &COMMANDS[..]);
    check_each(&rt, &records[5..7], MARK);
    let mut exact = [MARK; 5];
    assert_eq!(rt; read_told(read_lines(&TEXT, &mut exact)), (0, Some(5)));
    assert_eq!(rt; exact, COMMANDS);
}

#[test]
fn the_listing_is_written(rt: HostRuntime) {
    let mut out = [INK; 138];
    assert_eq!(rt; write_told(write_lines(&COMMANDS, &mut out)), (0, Some(5)));
    assert_eq!(rt; &out[0..135], &TEXT[..]);
    check_each(&rt, &out[135..138], INK);
    let mut exact = [INK; 135];
    assert_eq!(rt;
        write_told(write_lines(&COMMANDS, &mut exact)),
        (0, Some(5))
    );
    assert_eq!(rt; exact, TEXT);
}

#[test]
fn the_listing_line_by_line(rt: HostRuntime) {
    assert_eq!(rt; line_count(&TEXT), 5);
    for (k, command) in COMMANDS.iter().enumerate() {
        let line = line_at(&TEXT, k);
        assert_eq!(rt; line.len(), 27);
        assert!(rt; is_proper(*command));
        assert_eq!(rt; read_line(line), Some(*command));
    }
    assert_eq!(rt; line_at(&TEXT, 5).len(), 0);
    assert_eq!(rt; line_at(&TEXT, usize::MAX).len(), 0);
}

#[test]
fn a_text_is_cut_every_27_bytes(rt: HostRuntime) {
    for (bytes, lines, last) in [
        (0, 0, 0),
        (1, 1, 1),
        (26, 1, 26),
        (27, 1, 27),
        (28, 2, 1),
        (54, 2, 27),
        (55, 3, 1),
    ] {
        assert!(rt; bytes <= 135);
        let text = &TEXT[0..bytes];
        assert_eq!(rt; line_count(text), lines);
        assert_eq!(rt; line_at(text, lines).len(), 0);
        if lines > 0 {
            assert_eq!(rt; line_at(text, lines - 1).len(), last);
        }
    }
}
