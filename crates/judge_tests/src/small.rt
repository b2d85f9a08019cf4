// The small sheet, behind which the traces of the examples stand.
use report::judging::judging_text;
use std::alloc::{AllocError, Global};

// tRCD 3, tRP 3, tRAS 8, tRC 11, tRRD 2, tFAW 12, tCCD 4, tRTP 4, tWR 5, tWTR 3, RL 5, WL 4, BURST 4; 8 banks, 1,024 rows and 64 columns.
pub(crate) const LINE: [u8; 120] =
    *b"004E20000000300000003000000080000000B000000020000000C000000040000000400000005000000030000000500000004000000040800400040\n";

// What is told of a trace by the small sheet.
pub(crate) fn told(heap: Global, trace: &[u8]) -> Result<String, AllocError> {
    told_by(heap, &LINE, trace)
}

// What is told of a trace by a sheet line.
pub(crate) fn told_by(heap: Global, line: &[u8], trace: &[u8]) -> Result<String, AllocError> {
    let mut input = Vec::from_slice(heap, line)?;
    input.extend_from_slice(trace)?;
    judging_text(heap, input.as_slice())
}
