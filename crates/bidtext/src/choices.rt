ghost use Rattle.std.specs.Prelude.{◌≡◌, ℕ, List};
ghost use Rattle.bidfile.specs.declared.records.CurveChoice.TheVariants.{Straight, Stepped};
ghost use Rattle.bidfile.specs.declared.records.OrderChoice.TheVariants.{ByRule, ByName};
ghost use Rattle.bidfile.specs.declared.records.SideChoice.TheVariants.{Taker, Maker};
ghost use Rattle.bidtext.specs.declared.expected.Expected.{Expected as TheExpected};
ghost use Rattle.bidtext.specs.declared.expected.Expected.TheVariants as expected;
ghost use Rattle.bidtext.specs.Texts.{curve_word, order_word, side_word};
ghost use Rattle.bidtext.specs.Values.{choice};

use crate::expected::Expected;
use crate::values::is_word;
use bidfile::{CurveChoice, OrderChoice, SideChoice};

// What is written by one of two words; a method and no `Display`, since the types are bidfile's.
pub(crate) trait Choice: Copy {
    const ZEROTH: Self;

    const FIRST: Self;

    // What is expected where neither word stands.
    const EXPECTED: Expected;

    ghost ZEROTH: { Self };

    ghost FIRST: { Self };

    ghost EXPECTED: { TheExpected };

    ghost word: { Self → List ℕ };

    fn word(self) -> &'static str
        ensures { result.now ≡ word self };
}

impl Choice for CurveChoice {
    const ZEROTH: CurveChoice = CurveChoice::Straight;

    const FIRST: CurveChoice = CurveChoice::Stepped;

    const EXPECTED: Expected = Expected::CurveChoice;

    ghost ZEROTH = { Straight };

    ghost FIRST = { Stepped };

    ghost EXPECTED = { expected.CurveChoice };

    ghost word = { curve_word };

    fn word(self) -> &'static str {
        match self {
            CurveChoice::Straight => "straight",
            CurveChoice::Stepped => "stepped",
        }
    }
}

impl Choice for OrderChoice {
    const ZEROTH: OrderChoice = OrderChoice::ByRule;

    const FIRST: OrderChoice = OrderChoice::ByName;

    const EXPECTED: Expected = Expected::OrderChoice;

    ghost ZEROTH = { ByRule };

    ghost FIRST = { ByName };

    ghost EXPECTED = { expected.OrderChoice };

    ghost word = { order_word };

    fn word(self) -> &'static str {
        match self {
            OrderChoice::ByRule => "rule",
            OrderChoice::ByName => "name",
        }
    }
}

impl Choice for SideChoice {
    const ZEROTH: SideChoice = SideChoice::Taker;

    const FIRST: SideChoice = SideChoice::Maker;

    const EXPECTED: Expected = Expected::Side;

    ghost ZEROTH = { Taker };

    ghost FIRST = { Maker };

    ghost EXPECTED = { expected.Side };

    ghost word = { side_word };

    fn word(self) -> &'static str {
        match self {
            SideChoice::Taker => "taker",
            SideChoice::Maker => "maker",
        }
    }
}

// The one of two whose word stands in a field.
pub(crate) fn read_choice<C: Choice>(field: &[u8]) -> Result<C, Expected>
    ensures { result ≡ choice (C.word C.ZEROTH) C.ZEROTH (C.word C.FIRST) C.FIRST C.EXPECTED field.now }
{
    if is_word(field, C::ZEROTH.word().as_bytes()) {
        Ok(C::ZEROTH)
    } else if is_word(field, C::FIRST.word().as_bytes()) {
        Ok(C::FIRST)
    } else {
        Err(C::EXPECTED)
    }
}
