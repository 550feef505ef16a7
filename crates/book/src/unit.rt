ghost use Rattle.std.specs.Prelude.{◌≡◌, true, None};
ghost use Rattle.book.specs.Books.{new_unit, stood, out_at, for_years, in_kw, years_at};
ghost use Rattle.book.specs.Exits.{exit_up_to};
ghost use Rattle.book.specs.Names.{same_name};

use crate::class::{Class, Side};
use crate::names::is_same_name;
use crate::terms::Application;
use ranking::{Exit, Name};

// What a unit was enrolled with. Application is alike but for the class; one generic type for both would make contracts longer.
#[derive(Clone, Copy, PartialEq, Eq, Debug)]
pub struct Enrolment {
    pub capacity: u32,
    pub class: Class,
    pub side: Side,
    pub years: u32,
    pub random: u32,
    pub name: Name,
}

// What an entry may change of a unit: its years now, whether it is in, and the price at which it left. That `inside` stands beside
// `exit`, and that an exit price is read by `let .. else`, are forms of docs/DECISIONS.md, Book.
#[derive(Clone, Copy, PartialEq, Eq, Debug)]
pub struct Standing {
    pub years: u32,
    pub inside: bool,
    pub exit: Option<u32>,
}

impl Standing {
    // A unit begins in, with all the years that it was enrolled with.
    fn new(years: u32) -> Standing
        ensures { result ≡ record { years = years; inside = true; exit = None } }
    {
        Standing {
            years,
            inside: true,
            exit: None,
        }
    }

    pub(crate) fn out_at(self, price: u32) -> Standing
        ensures { result ≡ out_at self price }
    {
        Standing {
            inside: false,
            exit: Some(price),
            ..self
        }
    }

    pub(crate) fn for_years(self, years: u32) -> Standing
        ensures { result ≡ for_years self years }
    {
        Standing { years, ..self }
    }
}

#[derive(Clone, Copy, PartialEq, Eq, Debug)]
pub struct Unit {
    pub enrolled: Enrolment,
    pub standing: Standing,
}

impl Unit {
    // The unit that an application makes; a number that names no class is refused before.
    pub(crate) fn new(application: &Application) -> Unit
        ensures { result ≡ new_unit application.now }
    {
        let class = Class::try_from(application.class).unwrap_or(Class::Existing);
        let name = application.name;
        Unit {
            enrolled: Enrolment {
                capacity: application.capacity,
                class,
                side: application.side,
                years: application.years,
                random: application.random,
                name,
            },
            standing: Standing::new(application.years),
        }
    }

    // The unit stands again as it did before an entry.
    pub(crate) fn stand_again(&mut self, former: Standing)
        ensures { self.new ≡ stood self.old former }
    {
        self.standing = former;
    }

    // The capacity of a unit that is in, else 0.
    pub fn in_kw(&self) -> u32
        ensures { result ≡ in_kw self.now }
    {
        let Some(_) = self.standing.exit else {
            return self.enrolled.capacity;
        };
        0
    }

    // The years that the unit serves at a price: today the same at every price.
    pub fn years_at(&self, _price: u32) -> u32
        ensures { result ≡ years_at _price self.now }
    {
        self.standing.years
    }

    // The exit of the unit with this number, if its price is at most the cap.
    pub fn exit_up_to(&self, number: usize, cap: u32) -> Option<Exit>
        ensures { result ≡ exit_up_to «cap» number self.now }
    {
        let Some(price) = self.standing.exit.filter(|price| *price <= cap) else {
            return None;
        };
        Some(Exit {
            unit: number,
            price,
            capacity: self.enrolled.capacity,
            years: self.years_at(price),
            random: self.enrolled.random,
            name: self.enrolled.name,
        })
    }

    pub(crate) fn is_named(&self, name: Name) -> bool
        ensures { result ≡ same_name self.now.enrolled.name name }
    {
        is_same_name(self.enrolled.name, name)
    }
}
