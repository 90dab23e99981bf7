//! LINK and PAIR: each look is true where the row breaks its rule.
ghost use Rattle.std.specs.Prelude.{◌≡◌, ◌<◌};
ghost use Rattle.tables.specs.declared.Table.TheVariants.{Accounts};
ghost use Rattle.tables.specs.Shape.{rows, tables_now, words_of};
ghost use Rattle.rows.specs.Rows.{unknown, row_unlinked, same_pair, taken, row_taken};

use tables::columns::{
    ACCOUNT_CUSTOMER, ACCOUNT_ZONE, Column, OWNER_ZONE, UNIT_OWNER, UNIT_ZONE, entry,
};
use tables::{TABLES, Table};

// No row of a table has x as its first entry.
#[tactic(auto, using(crate::proofs::Looks::row_found, crate::proofs::Looks::row_missing), unfolding(lists::specs::Sums::any))]
fn unknown<'a>(table: Table, tables: [&'a [u64]; TABLES], x: u64) -> bool
    ensures { result ≡ unknown table (words_of (tables_now tables.entry) table) x }
{
    let words = tables::words_of(tables, table);
    let n = tables::rows_in(table, words.len());
    for j in 0..n {
        if entry(Column { table, index: 0 }, words, j) == x {
            return false;
        }
    }
    true
}

/// A row that an entry of row `i` of a table names does not exist; an account at the border names no zone.
pub fn row_unlinked<'a>(table: Table, tables: [&'a [u64]; TABLES], i: usize) -> bool
    requires { i < rows table (words_of (tables_now tables) table) }
    ensures { result ≡ row_unlinked (tables_now tables.entry) table i }
{
    let words = tables::words_of(tables, table);
    match table {
        Table::Zones => false,
        Table::Owners => {
            let zone = entry(OWNER_ZONE, words, i);
            unknown(Table::Zones, tables, zone)
        }
        Table::Units => {
            let owner = entry(UNIT_OWNER, words, i);
            let zone = entry(UNIT_ZONE, words, i);
            unknown(Table::Owners, tables, owner) || unknown(Table::Zones, tables, zone)
        }
        Table::Accounts => {
            let zone = entry(ACCOUNT_ZONE, words, i);
            zone != 0 && unknown(Table::Zones, tables, zone)
        }
        // Their first entry is an account.
        Table::Loads | Table::Reservations | Table::Firm => {
            let account = entry(Column { table, index: 0 }, words, i);
            unknown(Table::Accounts, tables, account)
        }
    }
}

// Two accounts have the same customer and the same zone.
fn same_pair(accounts: &[u64], j: usize, i: usize) -> bool
    requires { (j < rows Accounts accounts.now) × (i < rows Accounts accounts.now) }
    ensures { result ≡ same_pair accounts.now j i }
{
    let customer_j = entry(ACCOUNT_CUSTOMER, accounts, j);
    let zone_j = entry(ACCOUNT_ZONE, accounts, j);
    let customer_i = entry(ACCOUNT_CUSTOMER, accounts, i);
    let zone_i = entry(ACCOUNT_ZONE, accounts, i);
    (customer_j, zone_j) == (customer_i, zone_i)
}

// An earlier account has this one's customer and zone.
#[tactic(auto, using(crate::proofs::Looks::pair_found, crate::proofs::Looks::pair_missing), unfolding(lists::specs::Sums::any))]
fn taken(accounts: &[u64], i: usize) -> bool
    requires { i < rows Accounts accounts.now }
    ensures { result ≡ taken accounts.now i }
{
    for j in 0..i {
        if same_pair(accounts, j, i) {
            return true;
        }
    }
    false
}

/// An earlier account has the customer and the zone of row `i`; in a table other than the accounts nothing is taken.
pub fn row_taken(table: Table, words: &[u64], i: usize) -> bool
    requires { i < rows table words.now }
    ensures { result ≡ row_taken table words.now i }
{
    table == Table::Accounts && taken(words, i)
}
