//! Takes a line apart that has a certain number of fields.
ghost use Rattle.std.specs.Prelude.{◌≡◌, ◌≢◌, ◌∷◌, [], length, IfSome, IfNone};
ghost use Rattle.md_text.specs.Fields.{fields};
ghost use Rattle.md_text.specs.Numbers.{AreTwoNumbers};

use crate::{split_field, split_number};

/// The field of a line, if it has exactly one.
pub fn one_field(line: &[u8]) -> Option<&[u8]>
    ensures field { IfSome result (λ field. fields line.now ≡ field.now ∷ []) }
    ensures other_count { IfNone result (length (fields line.now) ≢ 1) }
{
    let (field, behind) = split_field(line)?;
    match split_field(behind) {
        Some(_) => None,
        None => Some(field),
    }
}

// The fields of a line, if it has exactly two.
fn two_fields(line: &[u8]) -> Option<(&[u8], &[u8])>
    ensures fields { IfSome result (λ p. fields line.now ≡ p.0.now ∷ p.1.now ∷ []) }
    ensures other_count { IfNone result (length (fields line.now) ≢ 2) }
{
    let (first, behind) = split_field(line)?;
    let second = one_field(behind)?;
    Some((first, second))
}

/// The fields of a line, if it has exactly three.
pub fn three_fields(line: &[u8]) -> Option<(&[u8], &[u8], &[u8])>
    ensures fields { IfSome result (λ p. fields line.now ≡ p.0.now ∷ p.1.now ∷ p.2.now ∷ []) }
    ensures other_count { IfNone result (length (fields line.now) ≢ 3) }
{
    let (first, behind) = split_field(line)?;
    let (second, third) = two_fields(behind)?;
    Some((first, second, third))
}

/// What the fields of a line write, each a number or none, if it has exactly two.
pub fn two_numbers(line: &[u8]) -> Option<(Option<u64>, Option<u64>)>
    ensures numbers { IfSome result (λ p. AreTwoNumbers line.now p.0 p.1) }
    ensures other_count { IfNone result (length (fields line.now) ≢ 2) }
{
    let (first, behind) = split_number(line)?;
    let (second, rest) = split_number(behind)?;
    if split_field(rest).is_some() {
        return None;
    }
    Some((first, second))
}
