// Sheets and chips at their limits.
use sheet::{Chip, Cycles, Period, Picoseconds, Sheet, SheetRefusal, Timing};
use std::test::Fail;

// A small sheet in cycles. On it BURST equals tCCD and tRC equals tRAS + tRP.
const SMALL: [u32; 13] = [3, 3, 8, 11, 2, 12, 4, 4, 5, 3, 5, 4, 4];

// One timing of the small sheet replaced, and what making that sheet answers: the refusal's number, 0 for none, and its place.
struct Case {
    period: u32,
    place: usize,
    length: u32,
    least: u32,
    number: u8,
    at: Option<usize>,
}

const CASES: [Case; 16] = [
    Case {
        period: 0,
        place: 0,
        length: 0,
        least: 3,
        number: 1,
        at: None,
    },
    Case {
        period: 1,
        place: 0,
        length: 255,
        least: 3,
        number: 0,
        at: None,
    },
    Case {
        period: 100_000,
        place: 0,
        length: 10_000_000,
        least: 3,
        number: 0,
        at: None,
    },
    Case {
        period: 100_001,
        place: 0,
        length: 0,
        least: 3,
        number: 1,
        at: None,
    },
    Case {
        period: 100_000,
        place: 7,
        length: 10_000_001,
        least: 3,
        number: 2,
        at: Some(7),
    },
    Case {
        period: 1,
        place: 7,
        length: 10_000_000,
        least: 3,
        number: 3,
        at: Some(7),
    },
    Case {
        period: 1_250,
        place: 12,
        length: 0,
        least: 255,
        number: 0,
        at: None,
    },
    Case {
        period: 1_250,
        place: 12,
        length: 0,
        least: 256,
        number: 2,
        at: Some(12),
    },
    Case {
        period: 1_250,
        place: 3,
        length: 0,
        least: 0,
        number: 3,
        at: Some(3),
    },
    Case {
        period: 1_250,
        place: 3,
        length: 1,
        least: 0,
        number: 0,
        at: None,
    },
    Case {
        period: 1_250,
        place: 3,
        length: 318_750,
        least: 0,
        number: 0,
        at: None,
    },
    Case {
        period: 1_250,
        place: 3,
        length: 318_751,
        least: 0,
        number: 3,
        at: Some(3),
    },
    Case {
        period: 1_250,
        place: 11,
        length: 0,
        least: 5,
        number: 0,
        at: None,
    },
    Case {
        period: 1_250,
        place: 11,
        length: 0,
        least: 6,
        number: 4,
        at: None,
    },
    Case {
        period: 1_250,
        place: 10,
        length: 0,
        least: 4,
        number: 0,
        at: None,
    },
    Case {
        period: 1_250,
        place: 10,
        length: 0,
        least: 3,
        number: 4,
        at: None,
    },
];

// Thirteen timings of so many cycles and no length.
fn timings(counts: &[u32; 13]) -> [Timing; 13] {
    counts.map(|count| Timing::from(Cycles::new(count)))
}

// The three stretches and the span of a sheet that is accepted.
fn sizes(counts: &[u32; 13]) -> Option<[u32; 4]> {
    let sheet = Sheet::new(Picoseconds::new(1_250), timings(counts)).ok()?;
    let chip = Chip::new(8, 1_024, 64).ok()?;
    let (a, b, c) = sheet.stretches();
    Some([a.count(), b.count(), c.count(), sheet.span(&chip).count()])
}

// A refusal's number and place; 0 and none for a sheet that is accepted.
fn told(answer: Result<Sheet, SheetRefusal>) -> (u8, Option<usize>) {
    answer
        .err()
        .map_or((0, None), |why| (why.number(), why.place()))
}

#[test]
fn a_length_rounds_up_to_cycles(rt: HostRuntime) -> Result<(), Fail> {
    let period = Period::new(Picoseconds::new(1_250)).ok_or("no period")?;
    assert_eq!(rt; Picoseconds::new(13_750).in_cycles(period).count(), 11);
    assert_eq!(rt; Picoseconds::new(13_751).in_cycles(period).count(), 12);
    Ok(())
}

#[test]
fn stretches_and_span(rt: HostRuntime) {
    assert_eq!(rt; sizes(&SMALL), Some([13, 12, 11, 36]));
    assert_eq!(rt; sizes(&[1; 13]), Some([3, 1, 3, 7]));
    assert_eq!(rt; sizes(&[255; 13]), Some([765, 255, 765, 1_785]));
    // BURST is not tCCD, and tRC is over tRAS + tRP
    assert_eq!(rt;
        sizes(&[3, 3, 8, 21, 2, 12, 4, 4, 5, 3, 5, 4, 9]),
        Some([18, 21, 16, 55])
    );
    // each stretch by one member alone
    assert_eq!(rt;
        sizes(&[3, 3, 90, 11, 2, 12, 4, 4, 5, 3, 5, 4, 4]),
        Some([90, 12, 11, 113])
    );
    assert_eq!(rt;
        sizes(&[3, 3, 8, 11, 2, 12, 4, 91, 5, 3, 5, 4, 4]),
        Some([91, 12, 11, 114])
    );
    assert_eq!(rt;
        sizes(&[3, 92, 8, 11, 2, 12, 4, 4, 5, 3, 5, 4, 4]),
        Some([13, 92, 11, 116])
    );
    assert_eq!(rt;
        sizes(&[3, 3, 8, 11, 93, 12, 4, 4, 5, 3, 5, 4, 4]),
        Some([13, 93, 11, 117])
    );
    assert_eq!(rt;
        sizes(&[94, 3, 8, 11, 2, 12, 4, 4, 5, 3, 5, 4, 4]),
        Some([13, 12, 94, 119])
    );
    assert_eq!(rt;
        sizes(&[3, 3, 8, 11, 2, 12, 95, 4, 5, 3, 5, 5, 4]),
        Some([14, 12, 97, 123])
    );
    assert_eq!(rt;
        sizes(&[3, 3, 8, 11, 2, 12, 4, 4, 5, 3, 96, 4, 4]),
        Some([13, 12, 98, 123])
    );
}

#[test]
fn sheets_at_their_limits(rt: HostRuntime) -> Result<(), Fail> {
    for case in &CASES {
        let mut given = timings(&SMALL);
        let timing = given.get_mut(case.place).ok_or("no such place")?;
        *timing = Timing {
            length: Picoseconds::new(case.length),
            least: Cycles::new(case.least),
        };
        assert_eq!(rt;
            told(Sheet::new(Picoseconds::new(case.period), given)),
            (case.number, case.at)
        );
    }
    Ok(())
}

#[test]
fn the_first_bad_place_is_told(rt: HostRuntime) {
    let mut given = timings(&SMALL);
    given[9].least = Cycles::new(0);
    given[4].least = Cycles::new(0);
    assert_eq!(rt;
        told(Sheet::new(Picoseconds::new(1_250), given)),
        (3, Some(4))
    );
    given[12].least = Cycles::new(256);
    given[6].length = Picoseconds::new(20_000_000);
    assert_eq!(rt;
        told(Sheet::new(Picoseconds::new(1_250), given)),
        (2, Some(6))
    );
    assert_eq!(rt; told(Sheet::new(Picoseconds::new(0), given)), (1, None));
}

#[test]
fn chips_at_their_limits(rt: HostRuntime) {
    assert!(rt; Chip::new(1, 1, 1).is_ok());
    assert!(rt; Chip::new(16, 65_536, 1_024).is_ok());
    for (banks, rows, columns) in [
        (0, 1, 1),
        (17, 1, 1),
        (1, 0, 1),
        (1, 65_537, 1),
        (1, 1, 0),
        (1, 1, 1_025),
    ] {
        let refused = Chip::new(banks, rows, columns).err();
        assert_eq!(rt; refused.map(|why| why.number()), Some(5));
    }
}
