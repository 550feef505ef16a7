ghost use Rattle.std.specs.Prelude.{◌≡◌};
ghost use Rattle.std.specs.Option.{ok_or};
ghost use Rattle.bidfile.specs.declared.records.CurveChoice.TheVariants.{Straight, Stepped};
ghost use Rattle.bidfile.specs.declared.records.OrderChoice.TheVariants.{ByRule, ByName};
ghost use Rattle.bidfile.specs.declared.records.SideChoice.TheVariants.{Taker, Maker};
ghost use Rattle.bidfile.specs.declared.fault.FileQuestion.TheVariants.{Fields};
ghost use Rattle.bidfile.specs.Items.{curve_number, order_number, side_number, selected};

use crate::fault::FileQuestion;
use crate::records::{CurveChoice, OrderChoice, SideChoice};

// The one of two that a field of 0 or 1 selects, by question 27.
fn selected<T: Copy>(number: u32, zeroth: T, first: T) -> Result<T, FileQuestion>
    ensures { result ≡ ok_or (selected zeroth first number) Fields }
{
    match number {
        0 => Ok(zeroth),
        1 => Ok(first),
        _ => Err(FileQuestion::Fields),
    }
}

impl TryFrom<u32> for CurveChoice {
    type Error = FileQuestion;

    ghost try_from_gives = { λ number r. r ≡ ok_or (selected Straight Stepped number) Fields };

    fn try_from(number: u32) -> Result<CurveChoice, FileQuestion> {
        selected(number, CurveChoice::Straight, CurveChoice::Stepped)
    }
}

impl From<CurveChoice> for u32 {
    ghost from_gives = { λ choice number. number ≡ curve_number choice };

    fn from(choice: CurveChoice) -> u32 {
        match choice {
            CurveChoice::Straight => 0,
            CurveChoice::Stepped => 1,
        }
    }
}

impl TryFrom<u32> for OrderChoice {
    type Error = FileQuestion;

    ghost try_from_gives = { λ number r. r ≡ ok_or (selected ByRule ByName number) Fields };

    fn try_from(number: u32) -> Result<OrderChoice, FileQuestion> {
        selected(number, OrderChoice::ByRule, OrderChoice::ByName)
    }
}

impl From<OrderChoice> for u32 {
    ghost from_gives = { λ choice number. number ≡ order_number choice };

    fn from(choice: OrderChoice) -> u32 {
        match choice {
            OrderChoice::ByRule => 0,
            OrderChoice::ByName => 1,
        }
    }
}

impl TryFrom<u32> for SideChoice {
    type Error = FileQuestion;

    ghost try_from_gives = { λ number r. r ≡ ok_or (selected Taker Maker number) Fields };

    fn try_from(number: u32) -> Result<SideChoice, FileQuestion> {
        selected(number, SideChoice::Taker, SideChoice::Maker)
    }
}

impl From<SideChoice> for u32 {
    ghost from_gives = { λ choice number. number ≡ side_number choice };

    fn from(choice: SideChoice) -> u32 {
        match choice {
            SideChoice::Taker => 0,
            SideChoice::Maker => 1,
        }
    }
}
