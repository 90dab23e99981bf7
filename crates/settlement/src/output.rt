//! The lent outputs of an accepted month: the rows of a block of columns, laid end to end.
ghost use Rattle.std.specs.Prelude.{◌≡◌, ◌*◌};
ghost use Rattle.lists.specs.Entries.{put};
ghost use Rattle.settlement.specs.Settled.{laid};
ghost use Rattle.settlement.specs.Steps.{word_in, Layable};

/// Writes the first `count` rows of a block end to end, to the first words of `out`. A block is `width` columns of `stride` words each,
/// one behind the other, and a row has a word of each.
pub fn lay(block: &[u64], width: usize, stride: usize, count: usize, out: &mut [u64])
    requires { Layable width stride count block.now out.old }
    ensures { out.new ≡ put (count * width) (laid width (word_in stride block.now)) out.old }
{
    for k in 0..count * width {
        out[k] = block[k % width * stride + k / width];
    }
}
