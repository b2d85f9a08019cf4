// Reads one sheet line and prints its timings in cycles, the three stretches and the span, or why it is refused.
#![tactic(auto)]

use report::sizing::sizing_text;
use std::io;
use std::io::Read;

// A sheet line has 120 bytes; one more is read, so that a longer input is seen.
const MOST: u64 = 121;

// Like the main of `judge` but for the limit and the call: five lines are shorter than what would serve both.
fn main(rt: HostRuntime) -> io::Result<()> {
    let heap = rt.alloc();
    let mut line = Vec::new(heap);
    rt.stdin().take(MOST).read_to_end(&mut line)?;
    let text = sizing_text(heap, line.as_slice())?;
    rt.print(text.as_str())
}
