//! What every crate shares: a sum that never wraps, a number where two others are the same, and for the proofs sums, counts and ranks
//! over positions, and lists made entry by entry. `specs/` has the definitions and `proofs/` their laws.
#![tactic(auto)]

ghost use Rattle.std.specs.Prelude.{◌≡◌, min, eqb};
ghost use Rattle.lists.specs.Sums.{total, when};

/// All numbers added up, or the cap where they add up to more.
#[tactic(auto, using(crate::proofs::Sums::sum_none, crate::proofs::Sums::sum_suc))]
pub fn sum_capped(numbers: &[u64], cap: u64) -> u64
    ensures { result ≡ min (total numbers.now) cap }
{
    let mut sum = 0;
    for &number in numbers {
        if cap - sum < number {
            return cap;
        }
        sum += number;
    }
    sum
}

/// A number where two others are the same, else 0.
pub fn when_same(its: u64, wanted: u64, x: u64) -> u64
    ensures { result ≡ when (eqb its wanted) x }
{
    if its == wanted { x } else { 0 }
}
