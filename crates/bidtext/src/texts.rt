ghost use Rattle.std.specs.Prelude.{◌≡◌, ◌<◌, ◌≤◌, ◌++◌, length, IfOk, string_bytes, codes};
ghost use Rattle.bidfile.specs.Items.{item_of, unit_item, terms, unit};
ghost use Rattle.bidtext.specs.Texts.{class_word, hex_digit, hex_pair, marks, is_plain, name_word, line_text};
ghost use Rattle.bidtext.specs.Letters.{space};
ghost use Rattle.std.specs.List.{flat_map, list_all};

use crate::choices::Choice;
use crate::letters::is_mark;
use crate::names::is_hexed;
use bidfile::{Record, TermsRecord, UnitRecord};
use std::alloc::{AllocError, Global};
use std::str::from_utf8;

// Not one table with `read_class`: a class without a word is read and written as its number.
fn class_text(heap: Global, class: u32) -> Result<String, AllocError>
    ensures { IfOk result (λ s. string_bytes s ≡ class_word class) }
{
    match class {
        0 => String::from_str(heap, "existing"),
        1 => String::from_str(heap, "refurbishing"),
        2 => String::from_str(heap, "new"),
        3 => String::from_str(heap, "demand"),
        _ => format!(in heap; "{class}"),
    }
}

// How many marks a name begins with.
fn marks(name: &[u8]) -> usize
    ensures count { result ≡ marks name.now }
    ensures within { result ≤ length name.now }
{
    name.iter().take_while(|byte| is_mark(**byte)).count()
}

fn are_spaces(bytes: &[u8]) -> bool
    ensures { result ≡ list_all space bytes.now }
{
    bytes.iter().all(|byte| *byte == b' ')
}

// Whether a name is written as it stands.
fn is_plain(name: &[u8]) -> bool
    ensures { result ≡ is_plain name.now }
{
    if is_hexed(name) {
        return false;
    }
    let marks = marks(name);
    marks >= 1 && are_spaces(&name[marks..])
}

// The hexadecimal digit of a value below 16.
fn hex_digit(value: u8) -> u8
    requires { value < 16 }
    ensures { result ≡ hex_digit value }
{
    if value < 10 {
        b'0' + value
    } else {
        b'A' + (value - 10)
    }
}

// A name as hexadecimal digits. Not by `{:02X}`, which took a third longer for a whole text.
fn hex_text(heap: Global, name: &[u8]) -> Result<String, AllocError>
    ensures { IfOk result (λ s. string_bytes s ≡ codes "hex:" ++ flat_map hex_pair name.now) }
{
    let mut text = String::from_str(heap, "hex:")?;
    for byte in name {
        text.push(char::from(hex_digit(byte / 16)))?;
        text.push(char::from(hex_digit(byte % 16)))?;
    }
    Ok(text)
}

fn name_text(heap: Global, name: &[u8]) -> Result<String, AllocError>
    ensures { IfOk result (λ s. string_bytes s ≡ name_word name.now) }
{
    if !is_plain(name) {
        return hex_text(heap, name);
    }
    String::from_str(heap, from_utf8(&name[..marks(name)]).unwrap())
}

fn terms_text(heap: Global, record: TermsRecord) -> Result<String, AllocError>
    ensures { IfOk result (λ s. string_bytes s ≡ line_text (terms «record»)) }
{
    let cap = record.cap;
    let spread = record.spread;
    let threshold = record.threshold;
    let curve = record.curve.word();
    let order = record.order.word();
    format!(in heap;
        "auction cap {cap} spread {spread} threshold {threshold} curve {curve} order {order}"
    )
}

fn unit_text(heap: Global, record: UnitRecord<&[u8]>) -> Result<String, AllocError>
    ensures { IfOk result (λ s. string_bytes s ≡ line_text (unit (unit_item «record».entry))) }
{
    let name = name_text(heap, record.name)?;
    let capacity = record.capacity;
    let class = class_text(heap, record.class)?;
    let side = record.side.word();
    let years = record.years;
    let random = record.random;
    format!(in heap; "unit {name} {capacity} {class} {side} years {years} random {random}")
}

// The text of a record, without its newline.
pub fn record_text(heap: Global, record: Record<&[u8]>) -> Result<String, AllocError>
    ensures { IfOk result (λ s. string_bytes s ≡ line_text (item_of «record».entry)) }
{
    match record {
        Record::Terms(terms) => terms_text(heap, terms),
        Record::Corner(corner) => format!(in heap; "corner {} {}", corner.quantity, corner.price),
        Record::Unit(unit) => unit_text(heap, unit),
        Record::Exit(exit) => format!(in heap; "exit {} {}", exit.unit, exit.price),
        Record::Years(years) => format!(in heap; "years {} {}", years.unit, years.years),
        Record::StepBack => String::from_str(heap, "back"),
        Record::Close => String::from_str(heap, "close"),
    }
}
