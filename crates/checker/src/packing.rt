// The answer for the test rig's C program: one number. What C calls is exported by the crate `checker_c`.
ghost use Rattle.std.specs.Prelude.{◌≡◌, ℕ, ◌%◌, ◌^◌, Err, Result};
ghost use Rattle.checker.specs.declared.refusals.TextRefusal.{TextRefusal as RefusedText};
ghost use Rattle.checker.specs.Judging.{JudgedText};
ghost use Rattle.checker.specs.Packing.{packed, GivesBack};

use crate::judging::judge_text;
use crate::refusals::TextRefusal;
use rulebook::rule::Rule;

// Judges a trace by a sheet line, both as bytes: refusal × 2^56 + rule × 2^48 + line, place or count.
pub fn dorwithel_judge(sheet_line: &[u8], text: &[u8]) -> u64
    ensures { (answer : Result ℕ RefusedText) × JudgedText sheet_line.now text.now answer × (result ≡ packed answer) × GivesBack result answer }
{
    pack(judge_text(sheet_line, text))
}

// The answer as one number, since C gets one.
pub fn pack(answer: Result<usize, TextRefusal>) -> u64
    ensures { result ≡ packed answer }
{
    match answer {
        Ok(count) => low_bits(count),
        Err(why) => pack_refusal(why),
    }
}

// A refusal as one number, with the rule and the line or place that it carries.
fn pack_refusal(why: TextRefusal) -> u64
    ensures { result ≡ packed (Err why) }
{
    let refusal = u64::from(why.number());
    let rule = u64::from(why.rule().map_or(0, Rule::number));
    (refusal << 56) + (rule << 48) + low_bits(why.place().unwrap_or(0))
}

// What stands in the lowest 48 bits.
fn low_bits(value: usize) -> u64
    ensures { result ≡ value % 2 ^ 48 }
{
    value as u64 % (1 << 48)
}
