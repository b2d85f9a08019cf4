// The checker as a test rig's C program calls it: one exported function over the proved checker.
#![tactic(auto)]

ghost use Rattle.std.specs.Prelude.{◌≡◌, ℕ, Result};
ghost use Rattle.checker.specs.declared.refusals.TextRefusal.{TextRefusal as RefusedText};
ghost use Rattle.checker.specs.Judging.{JudgedText};
ghost use Rattle.checker.specs.Packing.{packed, GivesBack};

use checker::packing;

// Judges a trace by a sheet line, both as bytes: refusal × 2^56 + rule × 2^48 + line, place or count.
#[unsafe(no_mangle)]
pub extern "C" fn dorwithel_judge(sheet_line: &[u8], text: &[u8]) -> u64
    ensures { (answer : Result ℕ RefusedText) × JudgedText sheet_line.now text.now answer × (result ≡ packed answer) × GivesBack result answer }
{
    packing::dorwithel_judge(sheet_line, text)
}
