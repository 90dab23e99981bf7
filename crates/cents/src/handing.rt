//! The cents left over, one each to the largest keys.
ghost use Rattle.std.specs.Prelude.{◌≡◌, ℕ, ◌^◌, ◌≤◌, ◌<◌, length};
ghost use Rattle.lists.specs.Sums.{at};
ghost use Rattle.lists.specs.Entries.{put};
ghost use Rattle.cents.specs.Dealt.{most};
ghost use Rattle.cents.specs.Steps.{larger, Between, Settling, handed};

// No key reaches 2^63.
const ABOVE_KEYS: u64 = 1 << 63;

// How many keys are larger than this one. A loop and no `filter` with `count`: `larger` counts by position, and an iterator by list.
#[tactic(auto, using(lists::proofs::Sums::sum_none, lists::proofs::Sums::sum_suc, lists::proofs::Sums::count_le, lists::proofs::Sums::bit_le, crate::proofs::Bits::bit_of))]
fn standing(keys: &[u64], key: u64) -> u64
    ensures { result ≡ larger keys.now key }
{
    let mut before: u64 = 0;
    for &other in keys {
        before += (key < other) as u64;
    }
    before
}

// Every key from `high` on gets a cent, and none below `low` does.
#[derive(Drop)]
struct Bounds {
    low: u64,
    high: u64,
}

// Settles a key. Where one gets a cent so do all larger ones, and where one gets none neither do the smaller: so in most lists
// few keys are counted.
#[tactic(auto, using(crate::proofs::Standing::as_known, crate::proofs::Standing::gets_one, crate::proofs::Standing::gets_none))]
fn narrowed(left: u64, keys: &[u64], key: u64, bounds: Bounds) -> Bounds
    requires { (key < 2 ^ 63) × Between left keys.now bounds.low bounds.high }
    ensures { Settling left keys.now key result.low result.high }
{
    if key < bounds.low || bounds.high <= key {
        return bounds;
    }
    if standing(keys, key) < left {
        return Bounds {
            high: key,
            ..bounds
        };
    }
    Bounds {
        low: key + 1,
        ..bounds
    }
}

// Bounds to begin with: where remainders are equal, keys fall from position to position, and halving finds the last one with a
// cent. Each look settles bounds on its way, which `partition_point` has no place for.
fn first_bounds(left: u64, keys: &[u64]) -> Bounds
    requires { (i : ℕ) → i < length keys.now → at keys.now i < 2 ^ 63 }
    ensures { Between left keys.now result.low result.high }
{
    let mut bounds = Bounds {
        low: 0,
        high: ABOVE_KEYS,
    };
    let mut from = 0;
    let mut to = keys.len();
    while from < to {
        let middle = from + (to - from) / 2;
        let key = keys[middle];
        bounds = narrowed(left, keys, key, bounds);
        if bounds.high <= key {
            from = middle + 1;
        } else {
            to = middle;
        }
    }
    bounds
}

/// One cent more at each position whose key has fewer larger ones than there are cents left.
pub fn hand_out(left: u64, keys: &[u64], out: &mut [u64])
    requires keys_in_bounds { length keys.now ≤ length out.old }
    requires by_index { (i : ℕ) → i < length keys.now → (at out.old i ≤ most) × (at keys.now i < 2 ^ 63) }
    ensures { out.new ≡ put (length keys.now) (handed left keys.now out.old) out.old }
{
    let mut bounds = first_bounds(left, keys);
    for (i, &key) in keys.iter().enumerate() {
        bounds = narrowed(left, keys, key, bounds);
        out[i] += (bounds.high <= key) as u64;
    }
}
