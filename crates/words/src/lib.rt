//! Numbers as the phone app lends them: eight bytes each, low byte first. Whole words of bytes are read into numbers, and numbers
//! written over the first bytes of a lent slice. `specs/Words.antt` says which bytes a number has; that reading and writing undo
//! each other stands in `proofs/Digits.antt`.
#![tactic(auto)]

ghost use Rattle.std.specs.Prelude.{◌≡◌, ◌++◌, ◌*◌, ◌/◌, ◌%◌, ◌≤◌, length, drop};
ghost use Rattle.words.specs.Words.{word_bytes, is_uneven, numbers, bytes_of};

/// Bytes to a number.
pub const WORD: usize = 8;

/// Whether a byte length is no multiple of eight, of two slices.
pub fn is_uneven(these: usize, those: usize) -> bool
    ensures { result ≡ is_uneven these those }
{
    these % WORD != 0 || those % WORD != 0
}

/// Writes the numbers of whole words of bytes to the first entries of `out`.
pub fn load(lent: &[u8], out: &mut [u64])
    requires { (length lent.now % word_bytes ≡ 0) × (length lent.now / word_bytes ≤ length out.old) }
    ensures { out.new ≡ numbers lent.now ++ drop (length lent.now / word_bytes) out.old }
{
    let (words, _) = lent.as_chunks::<WORD>();
    for (i, &word) in words.iter().enumerate() {
        out[i] = u64::from_le_bytes(word);
    }
}

/// Writes the bytes of numbers over the first bytes of `lent`.
pub fn store(values: &[u64], lent: &mut [u8])
    requires { word_bytes * length values.now ≤ length lent.old }
    ensures { lent.new ≡ bytes_of values.now ++ drop (word_bytes * length values.now) lent.old }
{
    for (i, value) in values.iter().enumerate() {
        lent[WORD * i..WORD * (i + 1)].copy_from_slice(&value.to_le_bytes());
    }
}
