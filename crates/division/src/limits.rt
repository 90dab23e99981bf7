//! The limits of a division, and the refusals that go by size.
ghost use Rattle.answer.specs.Results.{Says};
ghost use Rattle.division.specs.Limits.{size_refusal};

use answer::Refusal;

pub const MOST_WEIGHTS: usize = 64;

pub const POT_LIMIT: u64 = 100_000_000_000;

pub const WEIGHT_LIMIT: u64 = 10_000_000_000_000;

/// BIG, then BASE, for a pot and a sum of weights.
#[tactic(auto, unfolding(crate::specs::Limits::size_refusal))]
pub fn size_refusal(pot: u64, sum: u64) -> Result<(), Refusal>
    ensures { Says result (size_refusal pot sum) }
{
    if POT_LIMIT < pot || WEIGHT_LIMIT < sum {
        return Err(Refusal::Big);
    }
    if 0 < pot && sum == 0 {
        return Err(Refusal::Base);
    }
    Ok(())
}
