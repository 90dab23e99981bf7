//! Whether amounts that add up to the pot are level: how high each stands over its exact share, from products in two words,
//! and the highest and the lowest of these.
ghost use Rattle.std.specs.Prelude.{◌≡◌, ◌+◌, ◌-◌, ◌*◌, ◌≤◌, ◌<◌, min, length};
ghost use Rattle.lists.specs.Sums.{total};
ghost use Rattle.closeness.specs.Closeness.{level};
ghost use Rattle.division.specs.Limits.{pot_limit, weight_limit};
ghost use Rattle.division.specs.Refused.{FineSize};
ghost use Rattle.verdict.specs.Steps.{wide_value, WideProduct};

// A number in two words: `high` times 2^19, and `low` below 2^19. They are not one `u128`: `must-fail/high_part_lost.edit` tries the
// carry from the low word into the high one.
#[derive(Drop)]
struct Wide {
    high: u64,
    low: u64,
}

const WORD: u64 = 1 << 19;

fn product(factor: u64, number: u64) -> Wide
    requires { (factor ≤ weight_limit) × (number ≤ pot_limit + 1) }
    ensures { WideProduct factor number result.high result.low }
{
    let part = factor * (number % WORD);
    Wide {
        high: factor * (number / WORD) + part / WORD,
        low: part % WORD,
    }
}

// A number less another, 0 where the other is larger, and the cap where the difference is above it.
fn excess(number: Wide, other: Wide, cap: u64) -> u64
    requires { (number.low < 524288) × (other.low < 524288) × (cap ≤ 2 * weight_limit) }
    ensures { result ≡ min (wide_value number.high number.low - wide_value other.high other.low) cap }
{
    if number.high < other.high {
        return 0;
    }
    let steps = number.high - other.high;
    if cap / WORD + 1 < steps {
        return cap;
    }
    let upper = steps * WORD + number.low;
    let lower = other.low;
    if upper < lower {
        return 0;
    }
    cap.min(upper - lower)
}

/// Whether no amount stands more than a cent higher over its exact share than another, for amounts that add up to the pot.
#[tactic(auto, using(crate::proofs::Heights::heights))]
pub fn is_level(pot: u64, weights: &[u64], sum: u64, amounts: &[u64]) -> bool
    requires sum_value { (sum ≡ total weights.now) × FineSize pot sum }
    requires weights_len { (length weights.now ≡ length amounts.now) × (total amounts.now ≡ pot) }
    ensures { result ≡ level pot weights.now amounts.now }
{
    let mut highest: u64 = 0;
    let mut lowest = 2 * sum;
    for (&weight, &amount) in weights.iter().zip(amounts) {
        let above = product(sum, amount + 1);
        let exact = product(weight, pot);
        let height = excess(above, exact, 2 * sum);
        highest = highest.max(height);
        lowest = lowest.min(height);
    }
    highest <= lowest + sum
}
