//! Dividing a pot by weights. Every share is first cut down to whole cents, and the cents left over go one each to the largest
//! fractions cut off, lower position first: the work is done in `cents`. `specs/` says what is right, `proofs/Promises.antt` what
//! follows from it, and `proofs/Laws.antt` what the crates above may cite.
#![tactic(auto)]

ghost use Rattle.std.specs.Prelude.{◌≡◌, ◌≤◌, length};
ghost use Rattle.lists.specs.Sums.{total};
ghost use Rattle.lists.specs.Entries.{put};
ghost use Rattle.answer.specs.Results.{result_number};
ghost use Rattle.division.specs.Limits.{most_weights, size_refusal};
ghost use Rattle.division.specs.Shares.{share, Divided};

use answer::Refusal;

pub mod limits;

// Writes the shares to the first words of `out`. A sum of zero, which goes with a pot of zero, is divided by one instead.
fn share_out(pot: u64, weights: &[u64], sum: u64, out: &mut [u64])
    requires sum_value { (sum ≡ total weights.now) × (size_refusal pot sum ≡ 0) }
    requires weights_len_bound { (length weights.now ≤ most_weights) × (length weights.now ≤ length out.old) }
    ensures { out.new ≡ put (length weights.now) (share pot weights.now) out.old }
{
    cents::deal(pot, weights, sum.max(1), out);
}

/// Divides a pot by weights and writes the shares to the first words of `out`. Refuses with COUNT (more than 64 weights), ROOM
/// (`out` is shorter than the weights), BIG (a pot above 10^11, or weights that add up to more than 10^13) and BASE (a pot
/// above zero and weights that add up to zero), in this order; a refusal writes nothing.
#[tactic(auto, using(crate::proofs::Refusals::capped_size, crate::proofs::Refusals::sum_is, crate::proofs::Refusals::put_shares), unfolding(crate::specs::Limits::divide_refusal, crate::specs::Shares::memory))]
pub fn divide(pot: u64, weights: &[u64], out: &mut [u64]) -> Result<(), Refusal>
    ensures { Divided pot weights.now out.old out.new (result_number result) }
{
    let count = weights.len();
    if limits::MOST_WEIGHTS < count {
        return Err(Refusal::Count);
    }
    if out.len() < count {
        return Err(Refusal::Room);
    }
    let sum = lists::sum_capped(weights, limits::WEIGHT_LIMIT + 1);
    limits::size_refusal(pot, sum)?;
    share_out(pot, weights, sum, out);
    Ok(())
}
