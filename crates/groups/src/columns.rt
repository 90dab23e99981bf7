//! Writing to a column of words.
#![tactic(auto, using(lists::proofs::Entries::put_none, lists::proofs::Entries::put_suc, lists::proofs::Entries::put_ahead))]

ghost use Rattle.std.specs.Prelude.{◌≡◌, ℕ, ◌+◌, ◌≤◌, ◌<◌, ◌^◌, length};
ghost use Rattle.lists.specs.Sums.{at};
ghost use Rattle.lists.specs.Entries.{put};
ghost use Rattle.groups.specs.Columns.{MembersKept};

/// Adds each amount to its word of the column.
pub fn add(amounts: &[u64], column: &mut [u64])
    requires amounts_in_bounds { length amounts.now ≤ length column.old }
    requires by_index { (i : ℕ) → i < length amounts.now → at column.old i + at amounts.now i < 2 ^ 64 }
    ensures { column.new ≡ put (length amounts.now) (λ i. at column.old i + at amounts.now i) column.old }
{
    for (i, &amount) in amounts.iter().enumerate() {
        column[i] += amount;
    }
}

/// Writes each amount to its word of the column.
pub fn store(amounts: &[u64], column: &mut [u64])
    requires { length amounts.now ≤ length column.old }
    ensures { column.new ≡ put (length amounts.now) (at amounts.now) column.old }
{
    column[..amounts.len()].copy_from_slice(amounts);
}

/// Writes the weights of a group's members, and 0 for all others, to the first words of the column.
pub fn keep(weights: &[u64], groups: &[u64], group: u64, column: &mut [u64])
    requires { (length weights.now ≡ length groups.now) × (length weights.now ≤ length column.old) }
    ensures { MembersKept weights.now groups.now group column.old column.new }
{
    for (i, &weight) in weights.iter().enumerate() {
        column[i] = if groups[i] == group { weight } else { 0 };
    }
}
