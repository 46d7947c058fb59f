//! What holds of lines, fields and numbers. Each function has an empty body, and its contract is
//! the law: the statement stands in `specs/Laws.antt`.
ghost use Rattle.std.specs.Prelude.{◌≡◌};
ghost use Rattle.md_text.specs.Laws.{NoLines, LineThenRest, LastLine, LinesOfEnded, LinesOfEndedThenRest, LinesAreTheCut, ReturnTakenOff, OtherEndStays, LineWithoutReturnStays, NoFields, BlankThenFields, LastField, FieldThenRest, FieldsOfJoined, FieldsAreWords, DecimalIsCanonical, DecimalOfValue, DecimalIsInjective, NumberOfDecimal, LengthOfDecimal, DecimalIsWord, DecimalIsDigits, DecimalByDigits, ValueByDigits, DecimalIsDisplayed};

use crate::DIGITS;

/// How a text is cut into lines, from the front.
pub fn lines_by_front()
    ensures none { NoLines }
    ensures line { LineThenRest }
    ensures last { LastLine }
{}

/// Lines that are written one after the other are the lines that are read.
pub fn lines_of_written()
    ensures all { LinesOfEnded }
    ensures front { LinesOfEndedThenRest }
{}

/// `lines` is the one way to cut a text after each byte 10, where a last line without one has some
/// byte.
pub fn lines_are_the_cut()
    ensures law { LinesAreTheCut }
{}

/// What is taken off the end of a line.
pub fn returns_at_the_end()
    ensures taken { ReturnTakenOff }
    ensures other { OtherEndStays }
    ensures without { LineWithoutReturnStays }
{}

/// How a line is cut into fields, from the front.
pub fn fields_by_front()
    ensures none { NoFields }
    ensures blank { BlankThenFields }
    ensures field { FieldThenRest }
    ensures last { LastField }
{}

/// Words that are written with single spaces between them are the fields that are read.
pub fn fields_of_written()
    ensures joined { FieldsOfJoined }
    ensures words { FieldsAreWords }
{}

/// `decimal` is the one canonical spelling of each number.
pub fn decimal_is_the_spelling()
    ensures canonical { DecimalIsCanonical }
    ensures spelling { DecimalOfValue }
    ensures injective { DecimalIsInjective }
{}

/// The digits of a number that is written are a field from which the same number is read.
pub fn number_of_written()
    ensures number { NumberOfDecimal }
    ensures word { DecimalIsWord }
    ensures digits { DecimalIsDigits }
    ensures len { LengthOfDecimal }
{}

/// How many digits a number that is read has at most.
pub fn digits_of_a_number()
    ensures number { DIGITS ≡ 18 }
{}

/// Digits and values, a digit at a time; and `{n}` displays the same digits.
pub fn decimal_by_digits()
    ensures decimal { DecimalByDigits }
    ensures value { ValueByDigits }
    ensures displayed { DecimalIsDisplayed }
{}
