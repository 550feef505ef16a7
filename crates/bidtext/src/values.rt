ghost use Rattle.std.specs.Prelude.{◌≡◌, min};
ghost use Rattle.bidtext.specs.Expectations.{expected_word};
ghost use Rattle.bidtext.specs.Values.{value_of, number_in, keyword, class_in, nothing_in, numeral};
ghost use Rattle.bidtext.specs.Letters.{digit};
ghost use Rattle.std.specs.List.{list_all};
ghost use Rattle.std.specs.Str.{bytes_eq};

use crate::expected::Expected;

// One more than the largest number of 28 bits.
pub(crate) const LIMIT: u32 = 268_435_456;

pub(crate) fn is_word(field: &[u8], word: &[u8]) -> bool
    ensures { result ≡ bytes_eq field.now word.now }
{
    field == word
}

// The number that decimal digits write, or the limit where it is no less.
fn value(digits: &[u8]) -> u32
    ensures { result ≡ min (value_of digits.now) 268435456 }
{
    digits.iter().fold(0, |value: u32, digit| {
        value
            .saturating_mul(10)
            .saturating_add(u32::from(digit.saturating_sub(b'0')))
            .min(LIMIT)
    })
}

fn are_digits(field: &[u8]) -> bool
    ensures { result ≡ list_all digit field.now }
{
    field.iter().all(|byte| byte.is_ascii_digit())
}

fn is_numeral(field: &[u8]) -> bool
    ensures { result ≡ numeral field.now }
{
    !field.is_empty() && are_digits(field)
}

pub(crate) fn read_number(field: &[u8]) -> Result<u32, Expected>
    ensures { result ≡ number_in field.now }
{
    if !is_numeral(field) {
        return Err(Expected::Number);
    }
    let number = value(field);
    if number < LIMIT {
        Ok(number)
    } else {
        Err(Expected::SmallNumber)
    }
}

// Reads the word that has to stand there.
pub(crate) fn read_word(field: &[u8], expected: Expected) -> Result<(), Expected>
    ensures { result ≡ keyword (expected_word expected) expected field.now }
{
    if is_word(field, expected.word().as_bytes()) {
        Ok(())
    } else {
        Err(expected)
    }
}

pub(crate) fn read_class(field: &[u8]) -> Result<u32, Expected>
    ensures { result ≡ class_in field.now }
{
    // Not a `match` on the words: its proof passed the limits of the search.
    if is_word(field, b"existing") {
        Ok(0)
    } else if is_word(field, b"refurbishing") {
        Ok(1)
    } else if is_word(field, b"new") {
        Ok(2)
    } else if is_word(field, b"demand") {
        Ok(3)
    } else if is_numeral(field) {
        read_number(field)
    } else {
        Err(Expected::Class)
    }
}

// Refuses what follows the last field of a record.
pub(crate) fn read_end(field: &[u8]) -> Result<(), Expected>
    ensures { result ≡ nothing_in field.now }
{
    if field.is_empty() {
        Ok(())
    } else {
        Err(Expected::End)
    }
}
