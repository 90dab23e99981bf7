//! Dealing out a pot in whole cents, by weights that are parts of a whole. Each weight's part of the pot is first cut down to whole
//! cents, and the cents left over go one each to the largest remainders, lower position first. Here stands the work: what a division
//! is and when it is refused stands in `division`.
#![tactic(auto)]

ghost use Rattle.std.specs.Prelude.{◌≡◌, ◌≤◌, length};
ghost use Rattle.lists.specs.Entries.{put};
ghost use Rattle.cents.specs.Dealt.{places, Base, dealt};

mod cutting;
mod handing;
mod quotients;

/// Writes what each weight gets to the first words of `out`.
pub fn deal(pot: u64, weights: &[u64], whole: u64, out: &mut [u64])
    requires base { Base pot weights.now whole }
    requires weights_len_bound { (length weights.now ≤ places) × (length weights.now ≤ length out.old) }
    ensures { out.new ≡ put (length weights.now) (dealt pot weights.now whole) out.old }
{
    let count = weights.len();
    let mut keys = [0u64; 64];
    let given = cutting::cut_down(pot, weights, whole, out, &mut keys);
    handing::hand_out(pot - given, &keys[..count], out);
}
