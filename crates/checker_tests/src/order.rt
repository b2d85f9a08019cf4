// Examples as data: which reason is told first.
use crate::cases::SMALL;

// A text judged by a sheet line: the refusal's number, 0 where it passes; the line, place or count, and the rule that are told; and the packed answer.
pub struct Judged {
    pub sheet_line: &'static [u8],
    pub text: &'static [u8],
    pub number: u8,
    pub low: Option<usize>,
    pub rule: Option<u8>,
    pub packed: u64,
}

pub const ORDER: [Judged; 28] = [
    // no lines pass
    Judged {
        sheet_line: SMALL,
        text: b"",
        number: 0,
        low: Some(0),
        rule: None,
        packed: 0x0000_0000_0000_0000,
    },
    // five lines that pass
    Judged {
        sheet_line: SMALL,
        text: b"\
            00000001100007000000000000\n\
            00000004300007010000000000\n\
            00000009200000000100000000\n\
            0000000C100009000100000000\n\
            0000000F400009000100000000\n\
            ",
        number: 0,
        low: Some(5),
        rule: None,
        packed: 0x0000_0000_0000_0005,
    },
    // a malformed sheet line comes before its period
    Judged {
        sheet_line: b"000000000000300000003000000080000000B000000020000000C00000004000000040000000500000003000000050000000400000004080040004g\n",
        text: b"xxxxxxxxxxxxxxxxxxxxxxxxxxx",
        number: 20,
        low: None,
        rule: None,
        packed: 0x1400_0000_0000_0000,
    },
    // so does one without its line feed
    Judged {
        sheet_line: b"000000000000300000003000000080000000B000000020000000C000000040000000400000005000000030000000500000004000000040800400040",
        text: b"xxxxxxxxxxxxxxxxxxxxxxxxxxx",
        number: 20,
        low: None,
        rule: None,
        packed: 0x1400_0000_0000_0000,
    },
    // so does one with a byte too many
    Judged {
        sheet_line: b"004E20000000300000003000000080000000B000000020000000C0000000400000004000000050000000300000005000000040000000408004000400\n",
        text: b"\
            00000001100007000000000000\n\
            00000004300007010000000000\n\
            00000009200000000100000000\n\
            0000000C100009000100000000\n\
            0000000F400009000100000000\n\
            ",
        number: 20,
        low: None,
        rule: None,
        packed: 0x1400_0000_0000_0000,
    },
    // no sheet line
    Judged {
        sheet_line: b"",
        text: b"",
        number: 20,
        low: None,
        rule: None,
        packed: 0x1400_0000_0000_0000,
    },
    // the period comes before a length
    Judged {
        sheet_line: b"000000000000300000003000000080000000B000000029896810C000000040000000400000005000000030000000500000004000000040800400040\n",
        text: b"xxxxxxxxxxxxxxxxxxxxxxxxxxx",
        number: 1,
        low: None,
        rule: None,
        packed: 0x0100_0000_0000_0000,
    },
    // a length over its limit comes before an earlier value of 0
    Judged {
        sheet_line: b"004E20000000300000003000000000000000B000000029896810C000000040000000400000005000000030000000500000004000000040800400040\n",
        text: b"xxxxxxxxxxxxxxxxxxxxxxxxxxx",
        number: 2,
        low: Some(5),
        rule: None,
        packed: 0x0200_0000_0000_0005,
    },
    // a value of 0 comes before WL over RL
    Judged {
        sheet_line: b"004E20000000300000003000000000000000B000000020000000C000000040000000400000005000000030000000500000006000000040800400040\n",
        text: b"xxxxxxxxxxxxxxxxxxxxxxxxxxx",
        number: 3,
        low: Some(2),
        rule: None,
        packed: 0x0300_0000_0000_0002,
    },
    // a value over 255
    Judged {
        sheet_line: b"004E20000000300000003000000080000000B000000020000000C00000004000000040000000504DD1F030000000500000004000000040800400040\n",
        text: b"",
        number: 3,
        low: Some(9),
        rule: None,
        packed: 0x0300_0000_0000_0009,
    },
    // WL over RL comes before the chip
    Judged {
        sheet_line: b"004E20000000300000003000000080000000B000000020000000C000000040000000400000005000000030000000500000006000000041100400040\n",
        text: b"xxxxxxxxxxxxxxxxxxxxxxxxxxx",
        number: 4,
        low: None,
        rule: None,
        packed: 0x0400_0000_0000_0000,
    },
    // the chip comes before the lines
    Judged {
        sheet_line: b"004E20000000300000003000000080000000B000000020000000C000000040000000400000005000000030000000500000004000000041100400040\n",
        text: b"xxxxxxxxxxxxxxxxxxxxxxxxxxx",
        number: 5,
        low: None,
        rule: None,
        packed: 0x0500_0000_0000_0000,
    },
    // a lower-case digit
    Judged {
        sheet_line: SMALL,
        text: b"\
            00000001100007000000000000\n\
            00000004300007010000000000\n\
            00000009200000000100000000\n\
            0000000c100009000100000000\n\
            0000000F400009000100000000\n\
            ",
        number: 16,
        low: Some(3),
        rule: None,
        packed: 0x1000_0000_0000_0003,
    },
    // a precharge with a row, of a closed bank and in no later cycle
    Judged {
        sheet_line: SMALL,
        text: b"00000001100007000000000000\n00000001230001000000000000\n",
        number: 16,
        low: Some(1),
        rule: None,
        packed: 0x1000_0000_0000_0001,
    },
    // an idle line with a requester, in no later cycle
    Judged {
        sheet_line: SMALL,
        text: b"00000005000000000000000000\n00000005000000000100000000\n",
        number: 16,
        low: Some(1),
        rule: None,
        packed: 0x1000_0000_0000_0001,
    },
    // a kind that there is not, beyond the chip
    Judged {
        sheet_line: SMALL,
        text: b"00000005000000000000000000\n000000065F0001000000000000\n",
        number: 16,
        low: Some(1),
        rule: None,
        packed: 0x1000_0000_0000_0001,
    },
    // a broken rule comes before a later malformed line
    Judged {
        sheet_line: SMALL,
        text: b"00000001100007000000000000\n00000008200000000000000000\nxxxxxxxxxxxxxxxxxxxxxxxxxxx",
        number: 18,
        low: Some(1),
        rule: Some(8),
        packed: 0x1208_0000_0000_0001,
    },
    // a malformed line comes before a later broken rule
    Judged {
        sheet_line: SMALL,
        text: b"00000001100007000000000000\nxxxxxxxxxxxxxxxxxxxxxxxxxxx00000001100007000000000000\n",
        number: 16,
        low: Some(1),
        rule: None,
        packed: 0x1000_0000_0000_0001,
    },
    // the first of two broken rules is told, though the other is smaller
    Judged {
        sheet_line: SMALL,
        text: b"00000001100007000000000000\n00000008200000000000000000\n00000007000000000000000000\n",
        number: 18,
        low: Some(1),
        rule: Some(8),
        packed: 0x1208_0000_0000_0001,
    },
    // the smallest of rules 1, 3, 6
    Judged {
        sheet_line: SMALL,
        text: b"00000001100007000000000000\n00000001100007000000000000\n",
        number: 18,
        low: Some(1),
        rule: Some(1),
        packed: 0x1201_0000_0000_0001,
    },
    // the smallest of rules 3, 6
    Judged {
        sheet_line: SMALL,
        text: b"00000001100007000000000000\n00000002100007000000000000\n",
        number: 18,
        low: Some(1),
        rule: Some(3),
        packed: 0x1203_0000_0000_0001,
    },
    // the smallest of rules 5, 9
    Judged {
        sheet_line: SMALL,
        text: b"00000001100007000000000000\n00000002300008000000000000\n",
        number: 18,
        low: Some(1),
        rule: Some(5),
        packed: 0x1205_0000_0000_0001,
    },
    // a broken last piece
    Judged {
        sheet_line: SMALL,
        text: b"\
            00000001100007000000000000\n\
            00000004300007010000000000\n\
            00000009200000000100000000\n\
            0000000C100009000100000000\n\
            0000000F400009000100000000\n\
            0000\
            ",
        number: 16,
        low: Some(5),
        rule: None,
        packed: 0x1000_0000_0000_0005,
    },
    // a last line without its line feed
    Judged {
        sheet_line: SMALL,
        text: b"\
            00000001100007000000000000\n\
            00000004300007010000000000\n\
            00000009200000000100000000\n\
            0000000C100009000100000000\n\
            0000000F400009000100000000\
            ",
        number: 16,
        low: Some(4),
        rule: None,
        packed: 0x1000_0000_0000_0004,
    },
    // a broken rule before a broken last piece
    Judged {
        sheet_line: SMALL,
        text: b"\
            00000001100007000000000000\n\
            00000003110007000000000000\n\
            00000005120007000000000000\n\
            00000007130007000000000000\n\
            0000000C140007000000000000\n\
            0\
            ",
        number: 18,
        low: Some(4),
        rule: Some(16),
        packed: 0x1210_0000_0000_0004,
    },
    // a first line may break a rule
    Judged {
        sheet_line: SMALL,
        text: b"00000009200000000000000000\n",
        number: 18,
        low: Some(0),
        rule: Some(4),
        packed: 0x1204_0000_0000_0000,
    },
    // one byte
    Judged {
        sheet_line: SMALL,
        text: b"\n",
        number: 16,
        low: Some(0),
        rule: None,
        packed: 0x1000_0000_0000_0000,
    },
    // a byte too many puts the lines behind it out of place
    Judged {
        sheet_line: SMALL,
        text: b"\
            00000001100007000000000000\n\
            00000004300007010000000000\n\
            \n\
            00000009200000000100000000\n\
            0000000C100009000100000000\n\
            0000000F400009000100000000\n\
            ",
        number: 16,
        low: Some(2),
        rule: None,
        packed: 0x1000_0000_0000_0002,
    },
];
