//! ORDER: the look is true where a row is not above the one before.
ghost use Rattle.std.specs.Prelude.{◌≡◌, ◌<◌};
ghost use Rattle.tables.specs.Shape.{rows};
ghost use Rattle.rows.specs.Rows.{not_above, row_above};

use tables::Table;
use tables::columns::{Column, entry};

/// Row `i` of a table is not above the one before. The first key column in which the two differ decides; the same key is not above.
#[tactic(auto, using(crate::proofs::KeyColumns::key_loop), unfolding(crate::specs::Rows::not_above))]
pub fn row_not_above(table: Table, words: &[u64], i: usize) -> bool
    requires { i < rows table words.now }
    ensures { result ≡ not_above (row_above table words.now) i }
{
    if i == 0 {
        return false;
    }
    let keys = tables::key_columns(table);
    for index in 0..keys {
        let column = Column { table, index };
        let before = entry(column, words, i - 1);
        let here = entry(column, words, i);
        if before != here {
            return here < before;
        }
    }
    true
}
