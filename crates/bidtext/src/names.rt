ghost use Rattle.std.specs.Prelude.{◌≡◌, ◌+◌, ◌*◌, ◌<◌, true, length, codes, slice_index_or};
ghost use Rattle.bidtext.specs.Letters.{hexadecimal, mark};
ghost use Rattle.std.specs.List.{list_all};
ghost use Rattle.bidtext.specs.Names.{is_hexed, hex_value, hex_byte, hex_name, plain_name, name_in};

use crate::expected::Expected;
use crate::letters::is_mark;

pub(crate) fn is_hexed(field: &[u8]) -> bool
    ensures { result ≡ is_hexed field.now }
{
    field.starts_with(b"hex:")
}

// A byte of a name, which ends in padding.
fn byte_at(field: &[u8], place: usize) -> u8
    ensures { result ≡ slice_index_or field.now place 32 }
{
    field.get(place).copied().unwrap_or(b' ')
}

fn are_marks(field: &[u8]) -> bool
    ensures { result ≡ list_all mark field.now }
{
    field.iter().all(|byte| is_mark(*byte))
}

fn read_plain(field: &[u8]) -> Result<[u8; 8], Expected>
    ensures { result ≡ plain_name field.now }
{
    if (1..=8).contains(&field.len()) && are_marks(field) {
        Ok(std::array::from_fn(|place| byte_at(field, place)))
    } else {
        Err(Expected::Name)
    }
}

fn hex_value(digit: u8) -> u8
    ensures { result ≡ hex_value digit }
{
    if digit < b'A' {
        digit.saturating_sub(b'0')
    } else if digit < b'a' {
        digit - b'A' + 10
    } else {
        digit - b'a' + 10
    }
}

// The byte that two hexadecimal digits write.
fn hex_byte(digits: &[u8], place: usize) -> u8
    requires place_in_bounds { 2 * place + 1 < length digits.now }
    requires digits_value { list_all hexadecimal digits.now ≡ true }
    ensures { result ≡ hex_byte digits.now place }
{
    16 * hex_value(digits[2 * place]) + hex_value(digits[2 * place + 1])
}

fn are_hexadecimal(digits: &[u8]) -> bool
    ensures { result ≡ list_all hexadecimal digits.now }
{
    digits.iter().all(|digit| digit.is_ascii_hexdigit())
}

fn read_hex(digits: &[u8]) -> Result<[u8; 8], Expected>
    ensures { result ≡ hex_name digits.now }
{
    if digits.len() == 16 && are_hexadecimal(digits) {
        // Not `array::from_fn`, as above: the proof of a call that requires something did not close.
        Ok([
            hex_byte(digits, 0),
            hex_byte(digits, 1),
            hex_byte(digits, 2),
            hex_byte(digits, 3),
            hex_byte(digits, 4),
            hex_byte(digits, 5),
            hex_byte(digits, 6),
            hex_byte(digits, 7),
        ])
    } else {
        Err(Expected::Name)
    }
}

// The eight bytes of a name.
pub(crate) fn read_name(field: &[u8]) -> Result<[u8; 8], Expected>
    ensures { result ≡ name_in field.now }
{
    if is_hexed(field) {
        read_hex(&field[4..])
    } else {
        read_plain(field)
    }
}
