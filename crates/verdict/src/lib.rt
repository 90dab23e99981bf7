//! Judging a division that anyone hands in: its amounts pass where they add up to the pot and no other list with that sum lies
//! closer to the exact shares. Where fractions tie several lists are as close, and each of them passes. `specs/` says what is
//! right, `proofs/Promises.antt` what follows from it, and `proofs/Laws.antt` what the crates above may cite.
#![tactic(auto)]

ghost use Rattle.verdict.specs.Check.{Checked};

use answer::Refusal;
use division::limits;

mod spread;

/// Says whether the amounts are a closest division of the pot by the weights. Refuses with COUNT (more than 64 weights, or not
/// as many amounts as weights), BIG and BASE, in this order. Amounts may be of any size.
/// What yes means, for weights that add up to more than zero, is the theorem `yes_means_closest` of `proofs/Promises.antt`: they add
/// up to the pot, and no list of as many whole numbers with that sum lies closer to the exact shares.
#[tactic(auto, using(division::proofs::Laws::capped_size, division::proofs::Laws::sized), unfolding(crate::specs::Check::verdict, crate::specs::Check::check_refusal, crate::specs::Check::passes))]
pub fn check(pot: u64, weights: &[u64], amounts: &[u64]) -> Result<bool, Refusal>
    ensures { Checked pot weights.now amounts.now result }
{
    let count = weights.len();
    if limits::MOST_WEIGHTS < count || amounts.len() != count {
        return Err(Refusal::Count);
    }
    let sum = lists::sum_capped(weights, limits::WEIGHT_LIMIT + 1);
    limits::size_refusal(pot, sum)?;
    let handed_out = lists::sum_capped(amounts, limits::POT_LIMIT + 1);
    if handed_out != pot {
        return Ok(false);
    }
    Ok(spread::is_level(pot, weights, sum, amounts))
}
