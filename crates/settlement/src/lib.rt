//! The settlement of a month, from its head and its tables as plain numbers: its answer, and the lent outputs. An input is judged
//! first, then every division is made in working columns, with the charges and credits of `pool`, `services` and `firm`, and only a
//! month that is accepted writes to the lent outputs. `specs/` says what is answered and written, `proofs/Promises.antt` what follows
//! from it.
#![tactic(auto)]

ghost use Rattle.std.specs.Prelude.{◌*◌, ◌≤◌, length};
ghost use Rattle.answer.specs.Results.{result_answer};
ghost use Rattle.tables.specs.Shape.{charge_width, credit_width, tables_now};
ghost use Rattle.pool.specs.Input.{month_of, owner_count, account_count};
ghost use Rattle.settlement.specs.Settled.{Settled};
ghost use Rattle.settlement.specs.Steps.{month_with, Settleable, Working, MonthDivided, GoodSettled};

use answer::Refused;
use month::Month;
use pool::{accounts, network};
use tables::{
    BLACK_START, CHARGE_WIDTH, CREDIT_WIDTH, Head, MOST_ACCOUNTS, MOST_OWNERS, REACTIVE, TABLES,
    Table,
};

mod output;

// Both blocks stay flat: the network's credits are two of the owners' columns, which `network::credit` is lent as one slice.
// Where each column of the accounts' block ends: their charges for the network, black start, reactive, firm service.
const NETWORK_CHARGES_END: usize = MOST_ACCOUNTS;

const BLACK_START_CHARGES_END: usize = NETWORK_CHARGES_END + MOST_ACCOUNTS;

const REACTIVE_CHARGES_END: usize = BLACK_START_CHARGES_END + MOST_ACCOUNTS;

const FIRM_CHARGES_END: usize = REACTIVE_CHARGES_END + MOST_ACCOUNTS;

// Where the columns of the owners' block end: their credits of the network, two columns with the non-zone ones, black start, reactive,
// firm service.
const NETWORK_CREDITS_END: usize = 2 * MOST_OWNERS;

const BLACK_START_CREDITS_END: usize = NETWORK_CREDITS_END + MOST_OWNERS;

const REACTIVE_CREDITS_END: usize = BLACK_START_CREDITS_END + MOST_OWNERS;

const FIRM_CREDITS_END: usize = REACTIVE_CREDITS_END + MOST_OWNERS;

// Makes every division of a good month, in two lent blocks: a column for each charge with a word for each account, and one for each
// credit with a word for each owner.
fn divide_month<'a>(
    month: Month,
    head: Head,
    tables: [&'a [u64]; TABLES],
    accounts: &mut [u64],
    owners: &mut [u64],
) -> Result<(), Refused>
    requires { Settleable (month_with month head (tables_now tables)) × Working accounts.old owners.old }
    ensures { MonthDivided (month_with month head (tables_now tables.entry)) accounts.new owners.new (result_answer result) }
{
    let count = columns::rows_of(tables, Table::Zones) as u64;
    // no heap here: an array of the most there can be
    let mut networks = [0u64; MOST_ACCOUNTS];
    let mut energies = [0u64; MOST_ACCOUNTS];
    accounts::fill(
        head.nonzone,
        tables,
        &mut accounts[..NETWORK_CHARGES_END],
        &mut networks,
        &mut energies,
    );
    let network = network::credit(
        tables,
        &accounts[..NETWORK_CHARGES_END],
        &mut owners[..NETWORK_CREDITS_END],
    );
    // With k zones the network has k + 1 divisions, so black start's begin at k + 1; it has 2k + 1, so reactive's begin at 3k + 2, and
    // the firm one stands at 5k + 3.
    let black_start = services::settle(
        BLACK_START,
        month,
        tables,
        &networks,
        &energies,
        &mut accounts[NETWORK_CHARGES_END..BLACK_START_CHARGES_END],
        &mut owners[NETWORK_CREDITS_END..BLACK_START_CREDITS_END],
        count + 1,
    );
    let reactive = services::settle(
        REACTIVE,
        month,
        tables,
        &networks,
        &energies,
        &mut accounts[BLACK_START_CHARGES_END..REACTIVE_CHARGES_END],
        &mut owners[BLACK_START_CREDITS_END..REACTIVE_CREDITS_END],
        3 * count + 2,
    );
    let firm = firm::settle(
        head,
        tables,
        &mut accounts[REACTIVE_CHARGES_END..FIRM_CHARGES_END],
        &mut owners[REACTIVE_CREDITS_END..FIRM_CREDITS_END],
        5 * count + 3,
    );
    // All four are made, and the first that is refused, in turn, gives the answer.
    network.and(black_start).and(reactive).and(firm)
}

// Settles a good month, with columns of its own.
fn settle_good<'a>(
    month: Month,
    head: Head,
    tables: [&'a [u64]; TABLES],
    charges: &mut [u64],
    credits: &mut [u64],
) -> Result<(), Refused>
    requires settleable { Settleable (month_with month head (tables_now tables)) }
    requires outputs_fit { (account_count (month_with month head (tables_now tables)) * charge_width ≤ length charges.old) × (owner_count (month_with month head (tables_now tables)) * credit_width ≤ length credits.old) }
    ensures { GoodSettled (month_with month head (tables_now tables.entry)) charges.old charges.new credits.old credits.new (result_answer result) }
{
    // no heap here: an array of the most there can be
    let mut accounts = [0u64; CHARGE_WIDTH * MOST_ACCOUNTS];
    let mut owners = [0u64; CREDIT_WIDTH * MOST_OWNERS];
    divide_month(month, head, tables, &mut accounts, &mut owners)?;
    output::lay(
        &accounts,
        CHARGE_WIDTH,
        MOST_ACCOUNTS,
        columns::rows_of(tables, Table::Accounts),
        charges,
    );
    output::lay(
        &owners,
        CREDIT_WIDTH,
        MOST_OWNERS,
        columns::rows_of(tables, Table::Owners),
        credits,
    );
    Ok(())
}

/// Settles a month. Refused is what `judgement::judge` refuses; then the first division that can't be made, with BIG or BASE, as table 9
/// with its place as row: with k zones, network zones 0 to k - 1, network non-zone k, then black start and reactive, each zone's split
/// and share in turn and last its non-zone pot, then the firm one at 5k + 3. A refusal writes nothing. An accepted month writes each
/// account's charges (network, black start, reactive, firm) to the first words of `charges`, row by row, and each owner's credits
/// (network, non-zone network, black start, reactive, firm) to the first words of `credits`; the words behind them stay.
pub fn settle<'a>(
    head: Head,
    tables: [&'a [u64]; TABLES],
    charges: &mut [u64],
    credits: &mut [u64],
) -> Result<(), Refused>
    ensures { Settled (month_of head (tables_now tables.entry)) charges.old charges.new credits.old credits.new (result_answer result) }
{
    let month = judgement::judge(head, tables, charges.len(), credits.len())?;
    settle_good(month, head, tables, charges, credits)
}
