ghost use Rattle.std.specs.Prelude.{◌≡◌, ◌<◌, Some, Ok};
ghost use Rattle.bidfile.specs.Items.{Item};
ghost use Rattle.bidfile.specs.Layout.{Fits};
ghost use Rattle.bidtext.specs.RoundTrip.{line_said, Fitting};
ghost use Rattle.bidtext.specs.Expectations.{expected_word};
ghost use Rattle.bidtext.specs.Texts.{line_text};
ghost use Rattle.bidtext.specs.Fields.{fields, field_at};
ghost use Rattle.bidtext.specs.Lines.{labelled, terms_line, pair_line, corner_line, unit_line, exit_line, years_line, entry_in, record_in, line_record};

use crate::choices::read_choice;
use crate::expected::Expected;
use crate::fields::field;
use crate::names::read_name;
use crate::values::{is_word, read_class, read_end, read_number, read_word};
use bidfile::{
    CurveChoice, ExitRecord, OrderChoice, Record, SideChoice, TermsRecord, UnitRecord, YearsRecord,
};
use curve::Corner;

// A number behind its word, which stands at a place.
fn read_labelled(line: &[u8], place: usize, expected: Expected) -> Result<u32, Expected>
    requires { place < 100 }
    ensures { result ≡ labelled (fields line.now) place (expected_word expected) expected }
{
    read_word(field(line, place), expected)?;
    read_number(field(line, place + 1))
}

fn read_terms(line: &[u8]) -> Result<TermsRecord, Expected>
    ensures { result ≡ terms_line (fields line.now) }
{
    let cap = read_labelled(line, 1, Expected::Cap)?;
    let spread = read_labelled(line, 3, Expected::Spread)?;
    let threshold = read_labelled(line, 5, Expected::Threshold)?;
    read_word(field(line, 7), Expected::Curve)?;
    let curve = read_choice::<CurveChoice>(field(line, 8))?;
    read_word(field(line, 9), Expected::Order)?;
    let order = read_choice::<OrderChoice>(field(line, 10))?;
    read_end(field(line, 11))?;
    Ok(TermsRecord {
        cap,
        spread,
        threshold,
        curve,
        order,
    })
}

// The two numbers of a record that has no other field.
fn read_pair(line: &[u8]) -> Result<(u32, u32), Expected>
    ensures { result ≡ pair_line (fields line.now) }
{
    let first = read_number(field(line, 1))?;
    let second = read_number(field(line, 2))?;
    read_end(field(line, 3))?;
    Ok((first, second))
}

fn read_corner(line: &[u8]) -> Result<Corner, Expected>
    ensures { result ≡ corner_line (fields line.now) }
{
    let (quantity, price) = read_pair(line)?;
    Ok(Corner { quantity, price })
}

fn read_unit(line: &[u8]) -> Result<UnitRecord<[u8; 8]>, Expected>
    ensures { result ≡ unit_line (fields line.now) }
{
    let name = read_name(field(line, 1))?;
    let capacity = read_number(field(line, 2))?;
    let class = read_class(field(line, 3))?;
    let side = read_choice::<SideChoice>(field(line, 4))?;
    let years = read_labelled(line, 5, Expected::Years)?;
    let random = read_labelled(line, 7, Expected::Random)?;
    read_end(field(line, 9))?;
    Ok(UnitRecord {
        capacity,
        class,
        side,
        years,
        random,
        name,
    })
}

fn read_exit(line: &[u8]) -> Result<ExitRecord, Expected>
    ensures { result ≡ exit_line (fields line.now) }
{
    let (unit, price) = read_pair(line)?;
    Ok(ExitRecord { unit, price })
}

fn read_years(line: &[u8]) -> Result<YearsRecord, Expected>
    ensures { result ≡ years_line (fields line.now) }
{
    let (unit, years) = read_pair(line)?;
    Ok(YearsRecord { unit, years })
}

// A record of a round.
fn read_entry(line: &[u8]) -> Result<Record<[u8; 8]>, Expected>
    ensures { result ≡ entry_in (fields line.now) }
{
    match field(line, 0) {
        b"exit" => read_exit(line).map(Record::Exit),
        b"years" => read_years(line).map(Record::Years),
        b"back" => {
            read_end(field(line, 1))?;
            Ok(Record::StepBack)
        }
        b"close" => {
            read_end(field(line, 1))?;
            Ok(Record::Close)
        }
        _ => Err(Expected::Record),
    }
}

fn read_record(line: &[u8]) -> Result<Record<[u8; 8]>, Expected>
    ensures { result ≡ record_in (fields line.now) }
{
    let word = field(line, 0);
    // Not a `match` on the words: its proof passed the limits of the search.
    if is_word(word, b"auction") {
        read_terms(line).map(Record::Terms)
    } else if is_word(word, b"corner") {
        read_corner(line).map(Record::Corner)
    } else if is_word(word, b"unit") {
        read_unit(line).map(Record::Unit)
    } else {
        read_entry(line)
    }
}

// The record of a line, or none if it is blank or a comment.
pub fn read_line(line: &[u8]) -> Result<Option<Record<[u8; 8]>>, Expected>
    ensures value { result ≡ line_record line.now }
    ensures back { (item : Item) → Fits item → line.now ≡ line_text item → line_said result ≡ Ok (Some item) }
    ensures fits { Fitting result }
{
    if field(line, 0).is_empty() {
        return Ok(None);
    }
    read_record(line).map(Some)
}
