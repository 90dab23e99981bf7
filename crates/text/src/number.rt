//! Decimal numbers below 2^64, with no sign, space or needless zero in front.
ghost use Rattle.std.specs.Prelude.{◌≡◌, true, ◌+◌, ◌≤◌, ◌<◌, min, length, drop};
ghost use Rattle.text.specs.Numbers.{is_digit, digit_of, digits_on, first_number, decimal};
ghost use Rattle.text.specs.Places.{NumberAt, PutAt};

const ZERO: u8 = b'0';

const BASE: u64 = 10;

/// A number that was read, and the offset behind it.
#[derive(Clone, Copy, Debug, PartialEq, Eq)]
pub struct Number {
    pub value: u64,
    pub next: usize,
}

#[tactic(auto, using(std::proofs::lemmas::Bool::Decides::nat_tests), unfolding(crate::specs::Numbers::is_digit))]
fn is_digit(byte: u8) -> bool
    ensures { result ≡ is_digit byte }
{
    byte.is_ascii_digit()
}

#[tactic(auto, using(crate::proofs::Numbers::digit_range))]
fn digit_of(byte: u8) -> u64
    requires { is_digit byte ≡ true }
    ensures { (result ≡ digit_of byte) × (result < 10) }
{
    u64::from(byte - ZERO)
}

// The number that begins with `first`, which is above 0, and goes on with the digits from `at` on.
#[tactic(auto, using(crate::proofs::Places::digits_next, crate::proofs::Places::digits_big, crate::proofs::Places::digits_stop, crate::proofs::Places::digits_end))]
fn digits_on(text: &[u8], at: usize, first: u64) -> Option<Number>
    requires { at ≤ length text.now }
    ensures { NumberAt text.now (digits_on first (drop at text.now)) result }
{
    let mut value = first;
    for i in at..text.len() {
        let byte = text[i];
        if !is_digit(byte) {
            return Some(Number { value, next: i });
        }
        value = value.checked_mul(BASE)?.checked_add(digit_of(byte))?;
    }
    Some(Number {
        value,
        next: text.len(),
    })
}

/// The number at `at`: a digit 0 by itself, or every digit from there on.
#[tactic(auto, using(crate::proofs::Places::number_stops, crate::proofs::Places::number_no_digit, crate::proofs::Places::number_is_zero))]
pub fn number_at(text: &[u8], at: usize) -> Option<Number>
    ensures { NumberAt text.now (first_number (drop at text.now)) result }
{
    let byte = *text.get(at)?;
    if !is_digit(byte) {
        return None;
    }
    if byte == ZERO {
        return Some(Number {
            value: 0,
            next: at + 1,
        });
    }
    digits_on(text, at + 1, digit_of(byte))
}

/// How many bytes a number takes.
#[tactic(auto, using(crate::proofs::Numbers::length_tenth, crate::proofs::Numbers::decimal_one, crate::proofs::Numbers::length_decimal))]
pub fn number_size(number: u64) -> usize
    ensures { result ≡ length (decimal number) }
{
    let mut size = 1;
    let mut left = number;
    // a `while`: digits are divided off, and no index is counted
    while BASE <= left {
        left /= BASE;
        size += 1;
    }
    size
}

/// Writes a number at `at`, its last digit first, and answers the place behind it.
#[tactic(auto, using(crate::proofs::Numbers::one_digit, crate::proofs::Numbers::length_decimal, crate::proofs::Stores::stored_one, crate::proofs::Numbers::decimal_one))]
pub fn put_number(number: u64, out: &mut [u8], at: usize) -> usize
    requires { at + length (decimal number) ≤ length out.old }
    ensures { PutAt out.old at (decimal number) result out.new }
{
    let end = at + number_size(number);
    let mut left = number;
    for i in (at + 1..end).rev() {
        out[i] = ZERO + (left % BASE) as u8;
        left /= BASE;
    }
    out[at] = ZERO + left as u8;
    end
}

/// A size and a piece more, or the cap where they add up to more.
pub fn add_capped(size: usize, piece: usize, cap: usize) -> usize
    ensures { result ≡ min (size + piece) cap }
{
    size.saturating_add(piece).min(cap)
}
