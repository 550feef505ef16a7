ghost use Rattle.std.specs.Prelude.{◌≡◌};
ghost use Rattle.book.specs.Asked.{years_known};

use crate::class::{Class, Side};
use ranking::Name;

// The terms of the round that is open; the threshold is the auction's in every round.
#[derive(Clone, Copy, PartialEq, Eq, Debug)]
pub struct Terms {
    pub cap: u32,
    pub floor: u32,
    pub threshold: u32,
}

// What is given to enrol a unit; the class comes as a number, since question 13 is whether there is such a class.
#[derive(Clone, Copy, PartialEq, Eq, Debug)]
pub struct Application {
    pub capacity: u32,
    pub class: u32,
    pub side: Side,
    pub years: u32,
    pub random: u32,
    pub name: Name,
}

impl Application {
    // Whether the number names a class, and the years are some that the class allows.
    pub(crate) fn has_known_years(&self) -> bool
        ensures { result ≡ years_known self.now }
    {
        Class::try_from(self.class).is_ok_and(|class| {
            (1..=class.most_years()).contains(&self.years)
        })
    }
}
