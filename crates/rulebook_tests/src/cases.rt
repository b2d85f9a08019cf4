// Examples as data: a sheet, the lines before, a line that breaks one rule after them, and one that breaks none.
use crate::judging::Line;
use rulebook::Kind::{Activate, Idle, Precharge, Read, Write};

// In the order of a sheet: tRCD, tRP, tRAS, tRC, tRRD, tFAW, tCCD, tRTP, tWR, tWTR, RL, WL, BURST.
pub const SMALL: [u32; 13] = [3, 3, 8, 11, 2, 12, 4, 4, 5, 3, 5, 4, 4];

// tRC is over tRAS + tRP, and BURST is not tCCD, so that each rule can be broken alone.
pub const WIDE: [u32; 13] = [3, 3, 8, 13, 2, 12, 4, 4, 5, 3, 5, 4, 5];

// A bank may be opened anew in each cycle, and another one only 255 cycles later.
pub const FAR: [u32; 13] = [1, 1, 1, 1, 255, 1, 1, 1, 1, 1, 1, 1, 1];

// An example. After the lines before, the bad line breaks the rule, and the good one in its place breaks none.
pub struct Case {
    pub sheet: [u32; 13],
    pub banks: u32,
    pub before: &'static [Line],
    pub bad: Line,
    pub rule: u8,
    pub good: Line,
}

// Bank 0 is opened at row 7.
const OPENED: [Line; 1] = [Line(1, Activate, 0, 7, 0)];

// Each rule alone, in order.
pub const RULES: [Case; 21] = [
    Case {
        sheet: WIDE,
        banks: 8,
        before: &OPENED,
        bad: Line(1, Idle, 0, 0, 0),
        rule: 1,
        good: Line(2, Idle, 0, 0, 0),
    },
    Case {
        sheet: WIDE,
        banks: 8,
        before: &OPENED,
        bad: Line(3, Activate, 8, 7, 0),
        rule: 2,
        good: Line(3, Activate, 7, 7, 0),
    },
    Case {
        sheet: WIDE,
        banks: 8,
        before: &OPENED,
        bad: Line(3, Activate, 1, 1_024, 0),
        rule: 2,
        good: Line(3, Activate, 1, 1_023, 0),
    },
    Case {
        sheet: WIDE,
        banks: 8,
        before: &OPENED,
        bad: Line(4, Read, 0, 7, 64),
        rule: 2,
        good: Line(4, Read, 0, 7, 63),
    },
    Case {
        sheet: WIDE,
        banks: 8,
        before: &OPENED,
        bad: Line(14, Activate, 0, 8, 0),
        rule: 3,
        good: Line(14, Activate, 1, 8, 0),
    },
    Case {
        sheet: WIDE,
        banks: 8,
        before: &OPENED,
        bad: Line(9, Precharge, 1, 0, 0),
        rule: 4,
        good: Line(9, Precharge, 0, 0, 0),
    },
    Case {
        sheet: WIDE,
        banks: 8,
        before: &OPENED,
        bad: Line(4, Read, 0, 8, 0),
        rule: 5,
        good: Line(4, Read, 0, 7, 0),
    },
    Case {
        sheet: WIDE,
        banks: 8,
        before: &OPENED,
        bad: Line(4, Write, 1, 7, 0),
        rule: 5,
        good: Line(4, Write, 0, 7, 0),
    },
    Case {
        sheet: WIDE,
        banks: 8,
        before: &[Line(1, Activate, 0, 7, 0), Line(9, Precharge, 0, 0, 0)],
        bad: Line(13, Activate, 0, 7, 0),
        rule: 6,
        good: Line(14, Activate, 0, 7, 0),
    },
    Case {
        sheet: WIDE,
        banks: 8,
        before: &OPENED,
        bad: Line(2, Activate, 1, 7, 0),
        rule: 7,
        good: Line(3, Activate, 1, 7, 0),
    },
    Case {
        sheet: WIDE,
        banks: 8,
        before: &OPENED,
        bad: Line(8, Precharge, 0, 0, 0),
        rule: 8,
        good: Line(9, Precharge, 0, 0, 0),
    },
    Case {
        sheet: WIDE,
        banks: 8,
        before: &OPENED,
        bad: Line(3, Read, 0, 7, 0),
        rule: 9,
        good: Line(4, Read, 0, 7, 0),
    },
    Case {
        sheet: WIDE,
        banks: 8,
        before: &OPENED,
        bad: Line(3, Write, 0, 7, 0),
        rule: 9,
        good: Line(4, Write, 0, 7, 0),
    },
    Case {
        sheet: WIDE,
        banks: 8,
        before: &[Line(1, Activate, 0, 7, 0), Line(20, Precharge, 0, 0, 0)],
        bad: Line(22, Activate, 0, 7, 0),
        rule: 10,
        good: Line(23, Activate, 0, 7, 0),
    },
    Case {
        sheet: WIDE,
        banks: 8,
        before: &[
            Line(1, Activate, 0, 7, 0),
            Line(3, Activate, 1, 7, 0),
            Line(6, Read, 0, 7, 0),
        ],
        bad: Line(9, Read, 1, 7, 0),
        rule: 11,
        good: Line(10, Read, 1, 7, 0),
    },
    Case {
        sheet: WIDE,
        banks: 8,
        before: &[
            Line(1, Activate, 0, 7, 0),
            Line(3, Activate, 1, 7, 0),
            Line(6, Write, 0, 7, 0),
        ],
        bad: Line(9, Write, 1, 7, 0),
        rule: 11,
        good: Line(10, Write, 1, 7, 0),
    },
    Case {
        sheet: WIDE,
        banks: 8,
        before: &[
            Line(1, Activate, 0, 7, 0),
            Line(3, Activate, 1, 7, 0),
            Line(6, Read, 0, 7, 0),
        ],
        bad: Line(12, Write, 1, 7, 0),
        rule: 12,
        good: Line(13, Write, 1, 7, 0),
    },
    Case {
        sheet: WIDE,
        banks: 8,
        before: &[
            Line(1, Activate, 0, 7, 0),
            Line(3, Activate, 1, 7, 0),
            Line(6, Write, 0, 7, 0),
        ],
        bad: Line(17, Read, 1, 7, 0),
        rule: 13,
        good: Line(18, Read, 1, 7, 0),
    },
    Case {
        sheet: WIDE,
        banks: 8,
        before: &[Line(1, Activate, 0, 7, 0), Line(20, Read, 0, 7, 0)],
        bad: Line(23, Precharge, 0, 0, 0),
        rule: 14,
        good: Line(24, Precharge, 0, 0, 0),
    },
    Case {
        sheet: WIDE,
        banks: 8,
        before: &[Line(1, Activate, 0, 7, 0), Line(20, Write, 0, 7, 0)],
        bad: Line(33, Precharge, 0, 0, 0),
        rule: 15,
        good: Line(34, Precharge, 0, 0, 0),
    },
    Case {
        sheet: SMALL,
        banks: 8,
        before: &[
            Line(1, Activate, 0, 7, 0),
            Line(3, Activate, 1, 7, 0),
            Line(5, Activate, 2, 7, 0),
            Line(7, Activate, 3, 7, 0),
        ],
        bad: Line(12, Activate, 4, 7, 0),
        rule: 16,
        good: Line(13, Activate, 4, 7, 0),
    },
];

// The edges: what never happened is not cycle 0, sums do not wrap, one bank, gaps that reach far back, and several rules broken at once.
pub const EDGES: [Case; 12] = [
    // four activates and one more do not start the count anew
    Case {
        sheet: SMALL,
        banks: 8,
        before: &[
            Line(1, Activate, 0, 7, 0),
            Line(7, Activate, 1, 7, 0),
            Line(9, Activate, 2, 7, 0),
            Line(11, Activate, 3, 7, 0),
            Line(13, Activate, 4, 7, 0),
        ],
        bad: Line(18, Activate, 5, 7, 0),
        rule: 16,
        good: Line(19, Activate, 5, 7, 0),
    },
    // the newest activate is the bank's own; the latest of another bank lies further back
    Case {
        sheet: FAR,
        banks: 8,
        before: &[
            Line(1, Activate, 0, 7, 0),
            Line(256, Activate, 1, 7, 0),
            Line(257, Precharge, 1, 0, 0),
            Line(258, Activate, 1, 7, 0),
            Line(259, Precharge, 1, 0, 0),
        ],
        bad: Line(512, Activate, 2, 7, 0),
        rule: 7,
        good: Line(260, Activate, 1, 7, 0),
    },
    Case {
        sheet: FAR,
        banks: 8,
        before: &[Line(1, Activate, 0, 7, 0)],
        bad: Line(255, Activate, 1, 7, 0),
        rule: 7,
        good: Line(256, Activate, 1, 7, 0),
    },
    // cycle 0 comes first
    Case {
        sheet: SMALL,
        banks: 8,
        before: &[Line(0, Activate, 0, 7, 0)],
        bad: Line(1, Activate, 1, 7, 0),
        rule: 7,
        good: Line(2, Activate, 1, 7, 0),
    },
    Case {
        sheet: SMALL,
        banks: 8,
        before: &[Line(0, Idle, 0, 0, 0)],
        bad: Line(0, Idle, 0, 0, 0),
        rule: 1,
        good: Line(1, Activate, 0, 7, 0),
    },
    // the largest cycle
    Case {
        sheet: SMALL,
        banks: 8,
        before: &[Line(0xFFFF_FFFD, Activate, 0, 7, 0)],
        bad: Line(0xFFFF_FFFF, Read, 0, 7, 0),
        rule: 9,
        good: Line(0xFFFF_FFFF, Activate, 1, 7, 0),
    },
    Case {
        sheet: SMALL,
        banks: 8,
        before: &[Line(0xFFFF_FFFE, Activate, 0, 7, 0)],
        bad: Line(0xFFFF_FFFF, Activate, 1, 7, 0),
        rule: 7,
        good: Line(0xFFFF_FFFF, Idle, 0, 0, 0),
    },
    // a chip of one bank
    Case {
        sheet: SMALL,
        banks: 1,
        before: &OPENED,
        bad: Line(3, Activate, 1, 7, 0),
        rule: 2,
        good: Line(4, Read, 0, 7, 0),
    },
    // rules 1, 3, 6; rules 2 and 4; rules 3 and 6; rules 5 and 9
    Case {
        sheet: SMALL,
        banks: 8,
        before: &OPENED,
        bad: Line(1, Activate, 0, 7, 0),
        rule: 1,
        good: Line(3, Activate, 1, 7, 0),
    },
    Case {
        sheet: SMALL,
        banks: 8,
        before: &OPENED,
        bad: Line(2, Precharge, 9, 0, 0),
        rule: 2,
        good: Line(9, Precharge, 0, 0, 0),
    },
    Case {
        sheet: SMALL,
        banks: 8,
        before: &OPENED,
        bad: Line(2, Activate, 0, 7, 0),
        rule: 3,
        good: Line(2, Idle, 0, 0, 0),
    },
    Case {
        sheet: SMALL,
        banks: 8,
        before: &OPENED,
        bad: Line(2, Read, 0, 8, 0),
        rule: 5,
        good: Line(4, Read, 0, 7, 0),
    },
];

// A trace that obeys on the small sheet: two requests to one bank at different rows.
pub const TWO_ROWS: [Line; 5] = [
    Line(1, Activate, 0, 7, 0),
    Line(4, Read, 0, 7, 16),
    Line(9, Precharge, 0, 0, 0),
    Line(12, Activate, 0, 9, 0),
    Line(15, Write, 0, 9, 0),
];
