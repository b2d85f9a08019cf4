// Sheet lines, whole and damaged.
use report::sizing::sizing_text;
use std::test::Fail;
use trace::board::read_board;
use trace::digits::digit_value;

// The small sheet at 1,250 picoseconds, with 8 banks, 1,024 rows and 64 columns.
const LINE: [u8; 120] =
    *b"004E20000000300000003000000080000000B000000020000000C000000040000000400000005000000030000000500000004000000040800400040\n";

// The refusal's number for a line, 0 where it is taken.
fn refusal(line: &[u8]) -> u8 {
    read_board(line).err().map_or(0, |why| why.number())
}

#[test]
fn digits_are_upper_case(rt: HostRuntime) {
    for byte in 0..=255u8 {
        let upper = b"0123456789ABCDEF".contains(&byte);
        assert_eq!(rt; digit_value(byte) != 255, upper);
    }
    assert_eq!(rt; digit_value(b'0'), 0);
    assert_eq!(rt; digit_value(b'9'), 9);
    assert_eq!(rt; digit_value(b'A'), 10);
    assert_eq!(rt; digit_value(b'F'), 15);
    assert_eq!(rt; digit_value(b'a'), 255);
    assert_eq!(rt; digit_value(b'G'), 255);
}

#[test]
fn a_damaged_line_is_malformed(rt: HostRuntime) {
    assert_eq!(rt; refusal(&LINE), 0);
    // each place by its number, since it is there that the line is damaged
    for place in 0..120 {
        let mut line = LINE;
        line[place] = b'g';
        assert_eq!(rt; refusal(&line), 20);
    }
    assert_eq!(rt; refusal(&LINE[0..119]), 20);
    assert_eq!(rt; refusal(&[]), 20);
    let mut longer = [b'0'; 121];
    longer[119] = b'\n';
    assert_eq!(rt; refusal(&longer), 20);
}

#[test]
fn what_is_printed(rt: HostRuntime) -> Result<(), Fail> {
    let heap = rt.alloc();
    let whole = sizing_text(heap, &LINE)?;
    assert_eq!(rt;
        whole.as_str(),
        "tRCD 3\ntRP 3\ntRAS 8\ntRC 11\ntRRD 2\ntFAW 12\ntCCD 4\ntRTP 4\ntWR 5\ntWTR 3\nRL 5\nWL 4\nBURST 4\nA 13\nB 12\nC 11\nspan 36\n"
    );
    let mut line = LINE;
    line[29] = b'F';
    let limit = sizing_text(heap, &line)?;
    assert_eq!(rt; limit.as_str(), "refused 2 at 3\n");
    let mut line = LINE;
    line[109] = b'1';
    let chip = sizing_text(heap, &line)?;
    assert_eq!(rt; chip.as_str(), "refused 5\n");
    let cut = sizing_text(heap, &LINE[0..119])?;
    assert_eq!(rt; cut.as_str(), "refused 20\n");
    Ok(())
}
