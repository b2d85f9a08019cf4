// The text that `sizing` prints for a sheet line.
ghost use Rattle.std.specs.Prelude.{Some, IfOk, string_bytes};
ghost use Rattle.report.specs.Sizing.{timings_text, stretches_text, SizedUp};

use sheet::{Board, Sheet};
use std::alloc::{AllocError, Global};
use std::fmt;
use trace::board::read_board;

// The text for a sheet line: what it sizes to, or why it is refused.
pub fn sizing_text(heap: Global, line: &[u8]) -> Result<String, AllocError>
    ensures { IfOk result (λ t. SizedUp line.now (string_bytes t)) }
{
    match read_board(line) {
        Ok(board) => format!(in heap; "{}{}", Timings(board.sheet), Stretches(board)),
        Err(why) => format!(in heap; "{why}\n"),
    }
}

// The timings of a sheet, shown one a line in the order of a sheet.
#[derive(Clone, Copy)]
struct Timings(Sheet);

impl fmt::Display for Timings {
    ghost output = { λ t. Some (timings_text t.0) };

    fn fmt<W: fmt::Write>(&self, f: &mut fmt::Formatter<W>) -> fmt::Result {
        let Sheet {
            rcd,
            rp,
            ras,
            rc,
            rrd,
            faw,
            ccd,
            rtp,
            wr,
            wtr,
            rl,
            wl,
            burst,
        } = self.0;
        write!(
            f,
            "tRCD {rcd}\ntRP {rp}\ntRAS {ras}\ntRC {rc}\ntRRD {rrd}\ntFAW {faw}\ntCCD {ccd}\ntRTP {rtp}\ntWR {wr}\ntWTR {wtr}\nRL {rl}\nWL {wl}\nBURST {burst}\n"
        )
    }
}

// The three stretches and the span of a board, shown one a line.
#[derive(Clone, Copy)]
struct Stretches(Board);

impl fmt::Display for Stretches {
    ghost output = { λ b. Some (stretches_text b.0.sheet b.0.chip) };

    fn fmt<W: fmt::Write>(&self, f: &mut fmt::Formatter<W>) -> fmt::Result {
        let (a, b, c) = self.0.sheet.stretches();
        let span = self.0.sheet.span(&self.0.chip);
        write!(f, "A {a}\nB {b}\nC {c}\nspan {span}\n")
    }
}
