//! Reads and writes numbers in decimal digits.
ghost use Rattle.std.specs.Prelude.{◌≡◌, ◌+◌, ◌/◌, ◌%◌, ◌<◌, ◌≤◌, true, false, [], ◌∷◌, ◌++◌, length, take, slice_index, vec_len, vec_capacity, OnOk, OnErr};
ghost use Rattle.std.specs.Char.{is_ascii_digit};
ghost use Rattle.std.specs.List.{list_all};
ghost use Rattle.md_text.specs.Numbers.{value, number_of, decimal};

use std::alloc::AllocError;

/// How many digits a number that is read may have. Every such number fits a `u64`.
pub const DIGITS: usize = 18;

// No `u64` has more digits.
const MOST_DIGITS: usize = 20;

/// The number that a field writes: 1 to `DIGITS` bytes, all of them `0` to `9`. None for any other
/// field. Leading zeros are allowed, and are counted. (DIMACS.)
pub fn number(field: &[u8]) -> Option<u64>
    ensures value { result ≡ number_of field.now }
{
    let (count, value) = leading_digits(field);
    if count == 0 || count < field.len() {
        return None;
    }
    Some(value)
}

// The digits that a text begins with, `DIGITS` of them at most: how many they are, and their value.
#[inline]
pub(crate) fn leading_digits(text: &[u8]) -> (usize, u64)
    ensures within { result.0 ≤ length text.now }
    ensures at_most { result.0 ≤ DIGITS }
    ensures digits { list_all is_ascii_digit (take result.0 text.now) ≡ true }
    ensures value { result.1 ≡ value (take result.0 text.now) }
    ensures stops { result.0 < length text.now → result.0 < DIGITS
        → is_ascii_digit (slice_index text.now result.0) ≡ false }
{
    let front = &text[..text.len().min(DIGITS)];
    let mut value = 0;
    for (count, byte) in front.iter().enumerate() {
        if !byte.is_ascii_digit() {
            return (count, value);
        }
        value = value * 10 + u64::from(*byte - b'0');
    }
    (front.len(), value)
}

/// Appends the shortest decimal digits of a number. Errors: want of memory; the text then stays.
#[tactic(auto, using(crate::proofs::NumberLemmas::decimal_fits_20))]
pub fn push_number(text: &mut Vec<u8>, n: u64) -> Result<(), AllocError>
    ensures appended { OnOk result (text.new.items ≡ text.old.items ++ decimal n) }
    ensures stays { OnErr result (text.new.items ≡ text.old.items) }
{
    text.reserve(MOST_DIGITS)?;
    push_decimal(text, n);
    Ok(())
}

/// Appends the shortest decimal digits of a number. It takes no memory: there has to be room for
/// the digits, of which a number below `10^k` has at most `k`.
#[inline]
pub fn push_decimal(text: &mut Vec<u8>, n: u64)
    requires room { vec_len text.old + length (decimal n) ≤ vec_capacity text.old }
    ensures items { text.new.items ≡ text.old.items ++ decimal n }
    ensures len { vec_len text.new ≡ vec_len text.old + length (decimal n) }
    ensures capacity { vec_capacity text.new ≡ vec_capacity text.old }
{
    if n < 10_000 {
        push_short(text, n);
    } else {
        push_long(text, n);
    }
}

// The same for five digits or more: those of a ten-thousandth, and then four.
#[tactic(auto, using(crate::proofs::NumberLemmas::digit_steps))]
fn push_long(text: &mut Vec<u8>, n: u64)
    requires long { 10000 ≤ n }
    requires room { vec_len text.old + length (decimal n) ≤ vec_capacity text.old }
    ensures items { text.new.items ≡ text.old.items ++ decimal n }
    ensures len { vec_len text.new ≡ vec_len text.old + length (decimal n) }
    ensures capacity { vec_capacity text.new ≡ vec_capacity text.old }
{
    let front = n / 10_000;
    if front < 10_000 {
        push_short(text, front);
    } else {
        push_long(text, front);
    }
    push_pair(text, n % 10_000 / 100);
    push_pair(text, n % 100);
}

// The same for at most four digits.
#[tactic(auto, using(crate::proofs::NumberLemmas::digit_steps))]
#[inline(always)]
fn push_short(text: &mut Vec<u8>, n: u64)
    requires short { n < 10000 }
    requires room { vec_len text.old + length (decimal n) ≤ vec_capacity text.old }
    ensures items { text.new.items ≡ text.old.items ++ decimal n }
    ensures len { vec_len text.new ≡ vec_len text.old + length (decimal n) }
    ensures capacity { vec_capacity text.new ≡ vec_capacity text.old }
{
    if n < 100 {
        push_front(text, n);
    } else {
        push_front(text, n / 100);
        push_pair(text, n % 100);
    }
}

// The same for one or two digits.
#[tactic(auto, using(crate::proofs::NumberLemmas::digit_steps))]
#[inline(always)]
fn push_front(text: &mut Vec<u8>, n: u64)
    requires short { n < 100 }
    requires room { vec_len text.old + length (decimal n) ≤ vec_capacity text.old }
    ensures items { text.new.items ≡ text.old.items ++ decimal n }
    ensures len { vec_len text.new ≡ vec_len text.old + length (decimal n) }
    ensures capacity { vec_capacity text.new ≡ vec_capacity text.old }
{
    if n < 10 {
        text.push_reserved(b'0' + n as u8);
    } else {
        push_pair(text, n);
    }
}

// Each number below 100 in two digits.
static PAIRS: [u8; 200] =
    *b"00010203040506070809101112131415161718192021222324252627282930313233343536373839404142434445464748495051525354555657585960616263646566676869707172737475767778798081828384858687888990919293949596979899";

// Appends a number below 100 in two digits.
#[inline(always)]
fn push_pair(text: &mut Vec<u8>, pair: u64)
    requires below { pair < 100 }
    requires room { vec_len text.old + 2 ≤ vec_capacity text.old }
    ensures items { text.new.items ≡ text.old.items ++ (48 + pair / 10) ∷ (48 + pair % 10) ∷ [] }
    ensures len { vec_len text.new ≡ vec_len text.old + 2 }
    ensures capacity { vec_capacity text.new ≡ vec_capacity text.old }
{
    let place = pair as usize * 2;
    text.push_reserved(PAIRS[place]);
    text.push_reserved(PAIRS[place + 1]);
}
