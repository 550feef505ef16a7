ghost use Rattle.std.specs.Prelude.{◌≡◌};

use crate::fault::FileQuestion;

// The kinds of records, in the order of their numbers.
#[derive(Clone, Copy, PartialEq, Eq, PartialOrd, Ord, Debug)]
pub enum Kind {
    Terms,
    Corner,
    Unit,
    Exit,
    Years,
    StepBack,
    Close,
}

impl From<Kind> for u32 {
    ghost use Rattle.bidfile.specs.Items.{kind_number};

    ghost from_gives = { λ kind number. number ≡ kind_number kind };

    fn from(kind: Kind) -> u32 {
        match kind {
            Kind::Terms => 1,
            Kind::Corner => 2,
            Kind::Unit => 3,
            Kind::Exit => 4,
            Kind::Years => 5,
            Kind::StepBack => 6,
            Kind::Close => 7,
        }
    }
}

impl TryFrom<u32> for Kind {
    ghost use Rattle.bidfile.specs.Found.{KindOf};

    type Error = FileQuestion;

    ghost try_from_gives = { KindOf };

    // Question 24 of the kind of a head word.
    fn try_from(number: u32) -> Result<Kind, FileQuestion> {
        match number {
            1 => Ok(Kind::Terms),
            2 => Ok(Kind::Corner),
            3 => Ok(Kind::Unit),
            4 => Ok(Kind::Exit),
            5 => Ok(Kind::Years),
            6 => Ok(Kind::StepBack),
            7 => Ok(Kind::Close),
            _ => Err(FileQuestion::Kind),
        }
    }
}

impl Kind {
    ghost use Rattle.std.specs.Prelude.{◌<◌};
    ghost use Rattle.bidfile.specs.Found.{operands};
    ghost use Rattle.bidfile.specs.Items.{kind_number, size};

    // The words of a record of the kind, its head word among them.
    pub fn size(self) -> usize
        ensures { result ≡ size (kind_number self) }
    {
        match self {
            Kind::Terms => 5,
            Kind::Unit => 7,
            Kind::Corner | Kind::Exit | Kind::Years => 2,
            Kind::StepBack | Kind::Close => 1,
        }
    }

    // How many operands of kind 0 such a record has: the words of a name have none.
    pub(crate) fn operands(self) -> usize
        ensures value { result ≡ operands (kind_number self) }
        ensures within { result < size (kind_number self) }
    {
        match self {
            Kind::Unit => 4,
            _ => self.size() - 1,
        }
    }
}
