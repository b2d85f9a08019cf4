// One line: each byte at each place, and what each kind of command leaves 0.
use crate::listing::COMMANDS;
use crate::told::{INK, check_each, write_told};
use rulebook::command::{Command, Kind};
use trace::line::{is_proper, read_line};
use trace::writing::write_lines;

// A line of each form, with no field 0 that need not be.
const LINES: [[u8; 27]; 5] = [
    *b"0000000A000000000000000000\n",
    *b"0000000A1F1234000100000007\n",
    *b"0000000A2F0000000100000007\n",
    *b"0000000A3F1234056100000007\n",
    *b"0000000A4F1234056100000007\n",
];

// Lines with a field that their kind leaves 0.
const MALFORMED: [[u8; 27]; 9] = [
    *b"0000000A2F0001000100000007\n",
    *b"0000000A2F1000000100000007\n",
    *b"0000000A2F0000001100000007\n",
    *b"0000000A1F1234001100000007\n",
    *b"0000000A010000000000000000\n",
    *b"0000000A000001000000000000\n",
    *b"0000000A000000001000000000\n",
    *b"0000000A000000000100000000\n",
    *b"0000000A000000000000000001\n",
];

// Kind, bank, row, column, requester and number of records that no line stands for.
const IMPROPER: [(Kind, u8, u16, u16, u8, u32); 15] = [
    (Kind::Precharge, 15, 1, 0, 1, 7),
    (Kind::Precharge, 15, 4_096, 0, 1, 7),
    (Kind::Precharge, 15, 0, 1, 1, 7),
    (Kind::Activate, 15, 4_660, 1, 1, 7),
    (Kind::Idle, 1, 0, 0, 0, 0),
    (Kind::Idle, 0, 1, 0, 0, 0),
    (Kind::Idle, 0, 0, 1, 0, 0),
    (Kind::Idle, 0, 0, 0, 1, 0),
    (Kind::Idle, 0, 0, 0, 0, 1),
    (Kind::Activate, 16, 0, 0, 0, 0),
    (Kind::Precharge, 0, 0, 0, 16, 0),
    (Kind::Read, 16, 0, 0, 0, 0),
    (Kind::Read, 0, 0, 4_096, 0, 0),
    (Kind::Read, 0, 0, 0, 16, 0),
    (Kind::Write, 255, 65_535, 65_535, 255, 7),
];

// Each byte is the digit 0.
fn zeros(part: &[u8]) -> bool {
    part.iter().all(|byte| *byte == b'0')
}

// Whether a line is well formed, by comparisons alone.
fn well_formed(line: &[u8; 27]) -> bool {
    let digits = line[0..26]
        .iter()
        .all(|byte| matches!(byte, b'0'..=b'9' | b'A'..=b'F'));
    let blank = match line[8] {
        b'0' => zeros(&line[9..26]),
        b'1' => zeros(&line[14..17]),
        b'2' => zeros(&line[10..17]),
        b'3' | b'4' => true,
        _ => false,
    };
    digits && blank && line[26] == 10
}

#[test]
fn each_byte_at_each_place(rt: HostRuntime) {
    for good in LINES {
        assert!(rt; well_formed(&good));
        // each place by its number, since it is there that the line is damaged
        for place in 0..27 {
            for byte in 0..=255u8 {
                let mut line = good;
                line[place] = byte;
                match read_line(&line) {
                    None => assert!(rt; !well_formed(&line)),
                    Some(command) => {
                        assert!(rt; well_formed(&line));
                        let mut out = [INK; 27];
                        assert_eq!(rt; write_told(write_lines(&[command], &mut out)), (0, Some(1)));
                        assert_eq!(rt; out, line);
                    }
                }
            }
        }
    }
}

#[test]
fn a_line_of_another_form_is_malformed(rt: HostRuntime) {
    for line in MALFORMED {
        assert!(rt; !well_formed(&line));
        assert!(rt; read_line(&line).is_none());
    }
    assert!(rt; read_line(b"0000000A3F1234056100000007\n\n").is_none());
    assert!(rt; read_line(b"0000000A3F1234056100000007\r\n").is_none());
}

#[test]
fn a_record_of_another_form_is_improper(rt: HostRuntime) {
    for (kind, bank, row, column, requester, number) in IMPROPER {
        let command = Command {
            cycle: 10,
            kind,
            bank,
            row,
            column,
            requester,
            number,
        };
        assert!(rt; !is_proper(command));
        let mut out = [INK; 81];
        let given = [COMMANDS[0], command, command];
        assert_eq!(rt; write_told(write_lines(&given, &mut out)), (17, Some(1)));
        check_each(&rt, &out, INK);
    }
}

#[test]
fn each_field_has_its_own_digits(rt: HostRuntime) {
    let line = *b"1234567839ABCDEF02FEDCBA98\n";
    let command = Command {
        cycle: 0x1234_5678,
        kind: Kind::Read,
        bank: 0x9,
        row: 0xABCD,
        column: 0xEF0,
        requester: 0x2,
        number: 0xFEDC_BA98,
    };
    assert_eq!(rt; read_line(&line), Some(command));
    let mut out = [INK; 27];
    assert_eq!(rt; write_told(write_lines(&[command], &mut out)), (0, Some(1)));
    assert_eq!(rt; out, line);
}

#[test]
fn the_largest_fields_come_back(rt: HostRuntime) {
    for (kind, line) in [
        (Kind::Read, *b"FFFFFFFF3FFFFFFFFFFFFFFFFF\n"),
        (Kind::Write, *b"FFFFFFFF4FFFFFFFFFFFFFFFFF\n"),
    ] {
        let largest = Command {
            cycle: 4_294_967_295,
            kind,
            bank: 15,
            row: 65_535,
            column: 4_095,
            requester: 15,
            number: 4_294_967_295,
        };
        let mut out = [INK; 27];
        assert_eq!(rt; write_told(write_lines(&[largest], &mut out)), (0, Some(1)));
        assert_eq!(rt; out, line);
        assert_eq!(rt; read_line(&out), Some(largest));
    }
}
