ghost use Rattle.std.specs.Prelude.{◌≡◌};
ghost use Rattle.book.specs.Books.{class_of, class_number, most_years, side_number};
ghost use Rattle.book.specs.Numbers.{IsNumbered};
ghost use Rattle.book.specs.Sides.{side_of};

// A number that names no class, or no side.
#[derive(Clone, Copy, PartialEq, Eq, Debug)]
pub struct UnknownNumber(pub u32);

// The class of a unit, by which its most years go.
#[derive(Clone, Copy, PartialEq, Eq, Debug)]
pub enum Class {
    Existing,
    Refurbishing,
    NewBuild,
    DemandSide,
}

impl TryFrom<u32> for Class {
    type Error = UnknownNumber;

    ghost try_from_gives = { IsNumbered class_of };

    fn try_from(number: u32) -> Result<Class, UnknownNumber> {
        match number {
            0 => Ok(Class::Existing),
            1 => Ok(Class::Refurbishing),
            2 => Ok(Class::NewBuild),
            3 => Ok(Class::DemandSide),
            _ => Err(UnknownNumber(number)),
        }
    }
}

impl From<Class> for u32 {
    ghost from_gives = { λ class number. number ≡ class_number class };

    fn from(class: Class) -> u32 {
        match class {
            Class::Existing => 0,
            Class::Refurbishing => 1,
            Class::NewBuild => 2,
            Class::DemandSide => 3,
        }
    }
}

impl Class {
    pub fn most_years(self) -> u32
        ensures { result ≡ most_years self }
    {
        match self {
            Class::Existing => 1,
            Class::Refurbishing => 3,
            Class::NewBuild => 15,
            Class::DemandSide => 1,
        }
    }
}

// Whether a unit takes the price, and so leaves only at or below the threshold, or makes it.
#[derive(Clone, Copy, PartialEq, Eq, Debug)]
pub enum Side {
    Taker,
    Maker,
}

impl TryFrom<u32> for Side {
    type Error = UnknownNumber;

    ghost try_from_gives = { IsNumbered side_of };

    fn try_from(number: u32) -> Result<Side, UnknownNumber> {
        match number {
            0 => Ok(Side::Taker),
            1 => Ok(Side::Maker),
            _ => Err(UnknownNumber(number)),
        }
    }
}

impl From<Side> for u32 {
    ghost from_gives = { λ side number. number ≡ side_number side };

    fn from(side: Side) -> u32 {
        match side {
            Side::Taker => 0,
            Side::Maker => 1,
        }
    }
}
