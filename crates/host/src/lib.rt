//! The phone app's calls: the division and the check on a pot and byte slices, eight bytes to a number, low byte first, and the
//! statement of a month file. The answer is one word: the refusal's number in its low byte, 0 where accepted, and the call's value
//! in the bits above. A refusal writes no byte. The calls keep nothing between them.
#![tactic(auto)]

ghost use Rattle.std.specs.Prelude.{◌≡◌};
ghost use Rattle.answer.specs.Results.{result_number};
ghost use Rattle.host.specs.Calls.{HostDivided, host_verdict, HostStated, checked_word};
ghost use Rattle.host.specs.Steps.{Counted};

use answer::Refusal;
use division::limits::MOST_WEIGHTS;

// A value is taken times this, so that it stands above the low byte.
const ABOVE: u64 = 256;

// The check's whole answers: above the low byte 1 for yes, 0 for no.
const YES: u64 = ABOVE;

const NO: u64 = 0;

// How many weights there are. COUNT where a byte length is no multiple of eight, and for more weights than a call takes.
fn count_words(weights: &[u8], others: &[u8]) -> Result<usize, Refusal>
    ensures { Counted weights.now others.now result }
{
    if words::is_uneven(weights.len(), others.len()) {
        return Err(Refusal::Count);
    }
    let count = weights.len() / words::WORD;
    if MOST_WEIGHTS < count {
        return Err(Refusal::Count);
    }
    Ok(count)
}

// Divides a pot by weights and writes the shares over the first bytes of `amounts`.
fn divide(pot: u64, weights: &[u8], amounts: &mut [u8]) -> Result<(), Refusal>
    ensures { HostDivided pot weights.now amounts.old amounts.new (result_number result) }
{
    let count = count_words(weights, amounts)?;
    // no heap here: an array of the most there can be
    let mut numbers = [0u64; MOST_WEIGHTS];
    let mut shares = [0u64; MOST_WEIGHTS];
    words::load(weights, &mut numbers);
    let room = (amounts.len() / words::WORD).min(MOST_WEIGHTS);
    division::divide(pot, &numbers[..count], &mut shares[..room])?;
    words::store(&shares[..count], amounts);
    Ok(())
}

// Says whether the amounts are a closest division of the pot by the weights.
fn check(pot: u64, weights: &[u8], amounts: &[u8]) -> Result<bool, Refusal>
    ensures { checked_word result ≡ host_verdict pot weights.now amounts.now }
{
    let count = count_words(weights, amounts)?;
    if amounts.len() != weights.len() {
        return Err(Refusal::Count);
    }
    // no heap here: an array of the most there can be
    let mut numbers = [0u64; MOST_WEIGHTS];
    let mut handed = [0u64; MOST_WEIGHTS];
    words::load(weights, &mut numbers);
    words::load(amounts, &mut handed);
    verdict::check(pot, &numbers[..count], &handed[..count])
}

/// Divides a pot by weights and writes the shares over the first bytes of `amounts`. Refuses with COUNT (a byte length that
/// is no multiple of eight, more than 64 weights), ROOM, BIG and BASE, in this order.
#[unsafe(no_mangle)]
pub extern "C" fn noketualo_divide(pot: u64, weights: &[u8], amounts: &mut [u8]) -> u64
    ensures { HostDivided pot weights.now amounts.old amounts.new result }
{
    match divide(pot, weights, amounts) {
        Ok(()) => 0,
        Err(refusal) => refusal.number(),
    }
}

/// Says whether the amounts are a closest division of the pot by the weights. Refuses with COUNT (a byte length that is no
/// multiple of eight, more than 64 weights, not as many amounts as weights), BIG and BASE, in this order.
#[unsafe(no_mangle)]
pub extern "C" fn noketualo_check(pot: u64, weights: &[u8], amounts: &[u8]) -> u64
    ensures { result ≡ host_verdict pot weights.now amounts.now }
{
    match check(pot, weights, amounts) {
        Ok(true) => YES,
        Ok(false) => NO,
        Err(refusal) => refusal.number(),
    }
}

/// Writes the statement of a month file to the front of `out`, and answers its length in the bits above the low byte. Refuses with
/// ROOM where `out` is too short for the statement; a file that is refused has a statement of its own.
#[unsafe(no_mangle)]
pub extern "C" fn noketualo_statement(text: &[u8], out: &mut [u8]) -> u64
    ensures { HostStated text.now out.old out.new result }
{
    match statement_text::statement(text, out) {
        Ok(length) => ABOVE * length as u64,
        Err(refused) => refused.refusal.number(),
    }
}
