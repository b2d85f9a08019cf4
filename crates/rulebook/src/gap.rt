// Whether a gap has passed since an earlier command.
ghost use Rattle.std.specs.Prelude.{◌≡◌};
ghost use Rattle.rulebook.specs.Answer.{too_soon, newest_elsewhere};

use sheet::Cycles;

// Whether the cycle comes before the gap after the earlier one has passed. Nothing is too soon after what never happened, and no sum wraps.
pub fn too_soon(earlier: Option<u32>, gap: Cycles, cycle: u32) -> bool
    ensures { result ≡ too_soon earlier gap.0 cycle }
{
    earlier.is_some_and(|first| u64::from(cycle) < u64::from(first) + u64::from(gap.count()))
}

// The newest activate of all, unless it is the one of the bank itself.
pub fn newest_elsewhere(newest: Option<u32>, own: Option<u32>) -> Option<u32>
    ensures { result ≡ newest_elsewhere newest own }
{
    newest.filter(|cycle| own != Some(*cycle))
}
