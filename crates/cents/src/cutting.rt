//! Each weight's share cut down to whole cents, and what that cuts off kept with its place.
ghost use Rattle.std.specs.Prelude.{◌+◌, ◌-◌, ◌*◌, ◌/◌, ◌≤◌, ◌<◌, length};
ghost use Rattle.cents.specs.Dealt.{most, places, Base};
ghost use Rattle.cents.specs.Steps.{Room, PartKept, Cut, CutDown};

use crate::quotients::{self, Part};

// How many positions there can be. A key is a remainder times this, and how far its position is from the last one, so that one
// comparison orders remainders and places, and no two positions share a key.
const PLACES: u64 = 64;

// Keeps one position's whole cents in `out` and its remainder with its place in `keys`, and gives the cents back.
fn keep(part: Part, i: usize, out: &mut [u64], keys: &mut [u64]) -> u64
    requires rest_le_most { (part.rest ≤ most) × (i < places) }
    requires i_in_bounds { (i < length out.old) × (i < length keys.old) }
    ensures { PartKept part.cents part.rest i out.old out.new keys.old keys.new result }
{
    out[i] = part.cents;
    keys[i] = part.rest * PLACES + (PLACES - 1 - i as u64);
    part.cents
}

// Cuts the shares of N weights from a position on down to whole cents, and gives these back.
fn cut<const N: usize>(
    pot: u64,
    weights: &[u64],
    whole: u64,
    from: usize,
    out: &mut [u64],
    keys: &mut [u64],
) -> u64
    requires base { Base pot weights.now whole }
    requires room { Room weights.now out.old keys.old }
    requires from_within { from + N ≤ length weights.now }
    ensures { Cut pot weights.now whole from (from + N) out.old out.new keys.old keys.new result }
{
    let parts: [Part; N] = quotients::quotients(pot, &weights[from..from + N], whole);
    let mut given: u64 = 0;
    for k in 0..N {
        given += keep(parts[k], from + k, out, keys);
    }
    given
}

// The weights from a position on, N at a time as long as there are N.
fn cut_by<const N: usize>(
    pot: u64,
    weights: &[u64],
    whole: u64,
    from: usize,
    out: &mut [u64],
    keys: &mut [u64],
) -> u64
    requires base { Base pot weights.now whole }
    requires room { Room weights.now out.old keys.old }
    requires from_within { (0 < N) × (from ≤ length weights.now) }
    ensures { Cut pot weights.now whole from (from + (length weights.now - from) / N * N) out.old out.new keys.old keys.new result }
{
    let mut given: u64 = 0;
    for k in 0..(weights.len() - from) / N {
        given += cut::<N>(pot, weights, whole, from + k * N, out, keys);
    }
    given
}

/// Writes each weight's whole cents to `out` and its remainder with its place to `keys`, and adds the whole cents up.
pub fn cut_down(pot: u64, weights: &[u64], whole: u64, out: &mut [u64], keys: &mut [u64]) -> u64
    requires base { Base pot weights.now whole }
    requires room { Room weights.now out.old keys.old }
    ensures { CutDown pot weights.now whole out.old out.new keys.old keys.new result }
{
    let by_four = cut_by::<4>(pot, weights, whole, 0, out, keys);
    let by_one = cut_by::<1>(pot, weights, whole, weights.len() / 4 * 4, out, keys);
    by_four + by_one
}
