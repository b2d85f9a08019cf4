// Reads one sheet line and the trace behind it, and prints what the checker finds: a line for people, and the packed answer as the last line.
#![tactic(auto)]

use report::judging::judging_text;
use std::io;
use std::io::Read;

// A sheet line of 120 bytes and the longest trace that is judged; one byte more is read, so that a longer trace is seen.
const MOST: u64 = 120 + 1_073_741_824 + 1;

// Like the main of `sizing` but for the limit and the call: five lines are shorter than what would serve both.
fn main(rt: HostRuntime) -> io::Result<()> {
    let heap = rt.alloc();
    let mut input = Vec::new(heap);
    rt.stdin().take(MOST).read_to_end(&mut input)?;
    let text = judging_text(heap, input.as_slice())?;
    rt.print(text.as_str())
}
