//! The whole part and the remainder of pot times weight over the whole, by doubling and not as one product in a `u128`: one binary
//! digit of the pot a step, which can be counted as steps.
ghost use Rattle.std.specs.Prelude.{◌≡◌, ℕ, ◌*◌, ◌/◌, ◌≤◌, ◌<◌, length};
ghost use Rattle.lists.specs.Sums.{at};
ghost use Rattle.cents.specs.Dealt.{most};
ghost use Rattle.cents.specs.Steps.{Steady, Doubled, TakenOff, Quotients};

const TOP: u64 = 1 << 62;

#[derive(Clone, Copy)]
pub struct Part {
    pub cents: u64,
    pub rest: u64,
}

// What lets nothing of a gain through, and what lets all of it. They are read from memory: of a mask that is computed from the digit
// the compiler makes a branch.
const MASKS: [u64; 2] = [0, u64::MAX];

// The gain where the digit is 1, else 0. Every bit of the mask is the digit: quicker than a product, and than a branch.
fn masked(digit: u64, gain: u64) -> u64
    requires { digit ≤ 1 }
    ensures { result ≡ digit * gain }
{
    gain & MASKS[digit as usize]
}

// One binary digit of the pot more: everything is doubled, the gain comes on top where the digit is 1, and wholes are taken off
// the rest. How many is read off the top two bits, for the whole is hardly below 2^62: a comparison would make a branch that
// cannot be foretold, and each step waits for the one before.
fn step(part: Part, digit: u64, gain: u64, whole: u64) -> Part
    requires { Steady part.cents part.rest digit gain whole }
    ensures { Doubled part.cents part.rest (digit * gain) whole result.cents result.rest }
{
    let number = 2 * part.rest + masked(digit, gain);
    let taken = number / TOP;
    Part {
        cents: 2 * part.cents + taken,
        rest: number - taken * whole,
    }
}

// Undoes the stretching of the rest. It may be a little above the whole still, as the steps took off by the top bits alone.
fn settle(part: Part, factor: u64, whole: u64) -> Part
    requires { (part.cents ≤ most) × (0 < factor) }
    ensures { TakenOff part.cents (part.rest / factor) whole result.cents result.rest }
{
    let rest = part.rest / factor;
    if rest < whole {
        return Part { rest, ..part };
    }
    Part {
        cents: part.cents + 1,
        rest: rest - whole,
    }
}

/// Pot times weight over the whole, of N weights at once: while a step of one waits for the step before it, the others' go on. Weight
/// and whole are stretched by one factor, so that the whole comes close to 2^62.
pub fn quotients<const N: usize>(pot: u64, weights: &[u64], whole: u64) -> [Part; N]
    requires pot_le_most { (pot ≤ most) × (0 < whole) × (whole ≤ most) }
    requires weights_fit { (length weights.now ≡ N) × ((k : ℕ) → k < N → at weights.now k ≤ whole) }
    ensures { Quotients pot weights.now whole result }
{
    let factor = TOP / whole;
    let stretched = factor * whole;
    let mut gains = [0; N];
    for k in 0..N {
        gains[k] = factor * weights[k];
    }
    let mut parts = [Part { cents: 0, rest: 0 }; N];
    for left in (0..64 - pot.leading_zeros()).rev() {
        let digit = (pot >> left) % 2;
        for k in 0..N {
            parts[k] = step(parts[k], digit, gains[k], stretched);
        }
    }
    for k in 0..N {
        parts[k] = settle(parts[k], factor, whole);
    }
    parts
}
