ghost use Rattle.std.specs.Prelude.{◌≡◌, ◌+◌, ◌*◌, ◌<◌, ◌++◌, OnOk};
ghost use Rattle.bidfile.specs.Items.{kind_number, terms as terms_item, unit as unit_item};
ghost use Rattle.bidfile.specs.Layout.{Fits, head, layout, word_bytes};
ghost use Rattle.bidtext.specs.RoundTrip.{own_item, own_unit};
ghost use Rattle.std.specs.List.{flat_map};

use crate::values::LIMIT;
use bidfile::{Kind, Record, TermsRecord, UnitRecord};
use std::alloc::AllocError;

// A head word.
fn head(kind: Kind, value: u32) -> u32
    requires { value < 268435456 }
    ensures { result ≡ head (kind_number kind) value }
{
    u32::from(kind) * LIMIT + value
}

fn push_word(words: &mut Vec<u8>, word: u32) -> Result<(), AllocError>
    ensures { OnOk result (words.new.items ≡ words.old.items ++ word_bytes word) }
{
    words.extend_from_slice(&word.to_be_bytes())
}

fn push_words(words: &mut Vec<u8>, values: &[u32]) -> Result<(), AllocError>
    ensures { OnOk result (words.new.items ≡ words.old.items ++ flat_map word_bytes values.now) }
{
    for value in values {
        push_word(words, *value)?;
    }
    Ok(())
}

fn push_terms(words: &mut Vec<u8>, terms: TermsRecord) -> Result<(), AllocError>
    requires { Fits (terms_item terms) }
    ensures { OnOk result (words.new.items ≡ words.old.items ++ layout (terms_item terms)) }
{
    let first = head(Kind::Terms, terms.cap);
    let curve = u32::from(terms.curve);
    let order = u32::from(terms.order);
    push_words(words, &[first, terms.spread, terms.threshold, curve, order])
}

fn push_unit(words: &mut Vec<u8>, unit: UnitRecord<[u8; 8]>) -> Result<(), AllocError>
    requires { Fits (unit_item (own_unit unit)) }
    ensures { OnOk result (words.new.items ≡ words.old.items ++ layout (unit_item (own_unit unit))) }
{
    let first = head(Kind::Unit, unit.capacity);
    let side = u32::from(unit.side);
    push_words(words, &[first, unit.class, side, unit.years, unit.random])?;
    words.extend_from_slice(&unit.name)
}

// The words of a record that can be written.
pub(crate) fn push_record(words: &mut Vec<u8>, record: Record<[u8; 8]>) -> Result<(), AllocError>
    requires { Fits (own_item «record») }
    ensures { OnOk result (words.new.items ≡ words.old.items ++ layout (own_item «record»)) }
{
    match record {
        Record::Terms(terms) => push_terms(words, terms),
        Record::Corner(corner) => push_words(
            words,
            &[head(Kind::Corner, corner.quantity), corner.price],
        ),
        Record::Unit(unit) => push_unit(words, unit),
        Record::Exit(exit) => push_words(words, &[head(Kind::Exit, exit.unit), exit.price]),
        Record::Years(years) => push_words(words, &[head(Kind::Years, years.unit), years.years]),
        Record::StepBack => push_word(words, head(Kind::StepBack, 0)),
        Record::Close => push_word(words, head(Kind::Close, 0)),
    }
}
