ghost use Rattle.std.specs.Prelude.{◌≡◌, Some};
ghost use Rattle.bidtext.specs.Expectations.{expected_text, expected_word};

use std::fmt;

// What was expected on a line that cannot be read.
#[derive(Clone, Copy, PartialEq, Eq, Debug)]
pub enum Expected {
    Record,
    Cap,
    Spread,
    Threshold,
    Curve,
    CurveChoice,
    Order,
    OrderChoice,
    Name,
    Class,
    Side,
    Years,
    Random,
    Number,
    SmallNumber,
    End,
}

impl Expected {
    // The word that has to stand there, empty where it is no certain word.
    pub(crate) fn word(self) -> &'static str
        ensures { result.now ≡ expected_word self }
    {
        match self {
            Expected::Cap => "cap",
            Expected::Spread => "spread",
            Expected::Threshold => "threshold",
            Expected::Curve => "curve",
            Expected::Order => "order",
            Expected::Years => "years",
            Expected::Random => "random",
            _ => "",
        }
    }
}

impl fmt::Display for Expected {
    ghost output = { λ expected. Some (expected_text expected) };

    fn fmt<W: fmt::Write>(&self, f: &mut fmt::Formatter<W>) -> fmt::Result {
        match self {
            Expected::Record => f.write_str("auction, corner, unit, exit, years, back or close"),
            Expected::Cap => f.write_str("the word cap"),
            Expected::Spread => f.write_str("the word spread"),
            Expected::Threshold => f.write_str("the word threshold"),
            Expected::Curve => f.write_str("the word curve"),
            Expected::CurveChoice => f.write_str("straight or stepped"),
            Expected::Order => f.write_str("the word order"),
            Expected::OrderChoice => f.write_str("rule or name"),
            Expected::Name => f.write_str(
                "a name of 1 to 8 printable characters, or hex: and 16 hexadecimal digits",
            ),
            Expected::Class => {
                f.write_str("existing, refurbishing, new, demand or the number of a class")
            }
            Expected::Side => f.write_str("taker or maker"),
            Expected::Years => f.write_str("the word years"),
            Expected::Random => f.write_str("the word random"),
            Expected::Number => f.write_str("a number in decimal digits"),
            Expected::SmallNumber => f.write_str("a number of at most 268435455"),
            Expected::End => f.write_str("nothing more on the line"),
        }
    }
}
