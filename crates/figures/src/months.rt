//! The figures of the month: N1 and N2, M1, and the lengths of February and April.
ghost use Rattle.std.specs.Prelude.{◌≤◌};
ghost use Rattle.month.specs.Limits.{most_annual, most_rate};
ghost use Rattle.month.specs.Quantities.{most_contributions};

use answer::Refusal;
use month::{Month, TenthMwDays};
use std::io;

fn charge(rt: &HostRuntime, name: &str, contributions: u64, rate: u64) -> io::Result<()>
    requires { (contributions ≤ most_contributions) × (rate ≤ most_rate) }
{
    let cents = month::charge_at_rate(TenthMwDays(contributions), rate);
    println!(rt; "{name}: {contributions} tenths at {rate}: {cents}")
}

fn charges(rt: &HostRuntime) -> io::Result<()> {
    charge(rt, "N1", 3000, 1_471_400)?;
    charge(rt, "N2", 1825, 1)?;
    charge(rt, "N2", 1824, 1)
}

fn twelfth(rt: &HostRuntime, name: &str, annual: u64, month: u64, days: u64) -> io::Result<()>
    requires { annual ≤ most_annual }
{
    match Month::new(month, days) {
        Some(made) => {
            let cents = made.twelfth(annual);
            println!(rt; "{name}: annual {annual} in month {month}: {cents}")
        }
        None => println!(rt;
            "{name}: annual {annual} in month {month}: {}",
            Refusal::Month
        ),
    }
}

fn twelfths(rt: &HostRuntime) -> io::Result<()> {
    twelfth(rt, "M1", 100, 1, 31)?;
    twelfth(rt, "M1", 100, 2, 28)?;
    twelfth(rt, "M1", 100, 3, 31)
}

fn length(rt: &HostRuntime, name: &str, month: u64, days: u64) -> io::Result<()> {
    match Month::new(month, days) {
        Some(_) => println!(rt; "{name}: month {month} of {days} days: accepted"),
        None => println!(rt; "{name}: month {month} of {days} days: {}", Refusal::Month),
    }
}

fn lengths(rt: &HostRuntime) -> io::Result<()> {
    length(rt, "February", 2, 28)?;
    length(rt, "February", 2, 29)?;
    length(rt, "February", 2, 30)?;
    length(rt, "April", 4, 30)?;
    length(rt, "April", 4, 31)
}

pub(crate) fn run(rt: &HostRuntime) -> io::Result<()> {
    charges(rt)?;
    twelfths(rt)?;
    lengths(rt)
}
