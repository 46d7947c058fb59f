//! What stands at the beginning of a text.
ghost use Rattle.std.specs.Prelude.{◌≡◌, ◌+◌, ◌<◌, ◌∷◌, IfErr, IfOk, MatchOption};
ghost use Rattle.md_text.specs.Fronts.{IsDigit, IsPastDigits, IsNumberSplit, LacksFirst, LacksNumber};

// No number that is read here has more digits.
const MOST_DIGITS: usize = 5;

/// What stands behind the byte, if the text begins with it; else the text.
pub fn skip_byte<'a>(text: &'a [u8], byte: u8) -> Result<&'a [u8], &'a [u8]>
    ensures on { IfOk result (λ tail. text.now ≡ byte ∷ tail.now) }
    ensures stuck { IfErr result (λ tail. tail.now ≡ text.now) }
    ensures other { IfErr result (λ tail. LacksFirst byte text.now) }
{
    let Some((first, tail)) = text.split_first() else {
        return Err(text);
    };
    if *first == byte {
        return Ok(tail);
    }
    Err(text)
}

/// The number of at most five digits that a text begins with, and what stands behind it, which
/// begins with no digit; none if there is no such number.
#[inline(always)]
pub fn small_number<'a>(text: &'a [u8]) -> Option<(u32, &'a [u8])>
    ensures number { MatchOption result (LacksNumber text.now)
        (λ p. IsNumberSplit text.now p.0 p.1.now) }
{
    let (first, behind) = split_digit(text)?;
    if first == 0 {
        return match split_digit(behind) {
            Some(_) => None,
            None => Some((0, behind)),
        };
    }
    more_digits(text, first, behind)
}

// The same behind a first digit that is not 0.
#[inline(always)]
fn more_digits<'a>(text: &'a [u8], first: u32, behind: &'a [u8]) -> Option<(u32, &'a [u8])>
    requires above { 0 < first }
    requires digit { first < 10 }
    requires split { text.now ≡ (48 + first) ∷ behind.now }
    ensures { MatchOption result (LacksNumber text.now)
        (λ p. IsNumberSplit text.now p.0 p.1.now) }
{
    let mut value = first;
    let mut rest = behind;
    for _count in 1..MOST_DIGITS {
        let Some((digit, tail)) = split_digit(rest) else {
            return Some((value, rest));
        };
        value = value * 10 + digit;
        rest = tail;
    }
    match split_digit(rest) {
        Some(_) => None,
        None => Some((value, rest)),
    }
}

// The digit that a text begins with, and what stands behind it.
#[inline(always)]
fn split_digit<'a>(text: &'a [u8]) -> Option<(u32, &'a [u8])>
    ensures { MatchOption result (IsPastDigits text.now)
        (λ p. (p.0 < 10) × (text.now ≡ (48 + p.0) ∷ p.1.now)) }
{
    let (first, tail) = text.split_first()?;
    let value = digit(*first)?;
    Some((value, tail))
}

// The digit that a byte is.
#[inline(always)]
fn digit(byte: u8) -> Option<u32>
    ensures { MatchOption result (¬ (IsDigit byte))
        (λ d. (d < 10) × (byte ≡ 48 + d)) }
{
    let value = u32::from(byte).wrapping_sub(u32::from(b'0'));
    if value > 9 {
        return None;
    }
    Some(value)
}
