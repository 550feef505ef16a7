ghost use Rattle.std.specs.Prelude.{◌≡◌, ◌<◌, [], ◌∷◌, length, nat_lt, IfOk};
ghost use Rattle.book.specs.Asked.{asked, book_question, enrol_questions, exit_questions, years_questions, back_questions, named};
ghost use Rattle.book.specs.Books.{unit_at, capacity_inside, years_at};
ghost use Rattle.book.specs.Exits.{exit_up_to};
ghost use Rattle.book.specs.Views.{books};
ghost use Rattle.curve.specs.Questions.{refused, first_no};

use crate::book::Book;
use crate::class::Side;
use crate::names::is_well_formed;
use crate::refusal::BookRefusal;
use crate::room::{MOST_ENTRIES, MOST_UNITS};
use crate::terms::{Application, Terms};
use crate::unit::Unit;
use curve::CEILING;
use ranking::{Exit, Name};

const LEAST_KW: u32 = 1_000;

const MOST_KW: u32 = 5_000_000;

impl Book {
    pub fn count(&self) -> usize
        ensures { result ≡ length (books self.now).units }
    {
        self.table.rows.len()
    }

    // How many entries of this round can be stepped back.
    pub fn standing_entries(&self) -> usize
        ensures { result ≡ length (books self.now).entries }
    {
        self.entries.len()
    }

    // The units by number.
    pub fn units(&self) -> &[Unit]
        ensures { result.now ≡ (books self.now).units }
    {
        self.table.rows.as_slice()
    }

    // One unit by its number. This and the two below are public, and so stay, though `units` lends all that they read.
    pub fn unit(&self, i: usize) -> Unit
        requires { i < length (books self.now).units }
        ensures { result ≡ unit_at (books self.now) i }
    {
        self.table.rows[i]
    }

    // The years that the unit i serves at a price.
    pub fn years_at(&self, i: usize, price: u32) -> u32
        requires { i < length (books self.now).units }
        ensures { result ≡ years_at price (unit_at (books self.now) i) }
    {
        self.unit(i).years_at(price)
    }

    // The exit of the unit i, if it left at a price of at most the cap.
    pub fn exit_up_to(&self, i: usize, cap: u32) -> Option<Exit>
        requires { i < length (books self.now).units }
        ensures { result ≡ exit_up_to «cap» i (unit_at (books self.now) i) }
    {
        self.unit(i).exit_up_to(i, cap)
    }

    pub fn capacity_in(&self) -> u32
        ensures { result ≡ capacity_inside (books self.now).units }
    {
        self.units().iter().map(|unit| unit.in_kw()).sum()
    }

    fn is_named(&self, name: Name) -> bool
        ensures { result ≡ named (books self.now).units name }
    {
        // A loop, since the library's `any` took a fifth longer to enrol many units.
        for unit in self.units() {
            if unit.is_named(name) {
                return true;
            }
        }
        false
    }

    pub fn enrol_questions(&self, application: &Application) -> Result<(), BookRefusal>
        ensures { refused book_question result ≡ first_no (enrol_questions (books self.now) application.now) }
    {
        if self.count() >= MOST_UNITS {
            return Err(BookRefusal::Full);
        }
        if !(LEAST_KW..=MOST_KW).contains(&application.capacity) {
            return Err(BookRefusal::Capacity);
        }
        if self.total + application.capacity > CEILING {
            return Err(BookRefusal::Total);
        }
        if !application.has_known_years() {
            return Err(BookRefusal::ClassOrYears);
        }
        if !is_well_formed(application.name) || self.is_named(application.name) {
            return Err(BookRefusal::Name);
        }
        Ok(())
    }

    // The unit that an entry is to change: there is one with this number, and it is in.
    fn unit_in(&self, unit: usize) -> Result<Unit, BookRefusal>
        ensures asked { refused book_question result ≡ first_no (asked 15 (nat_lt unit (length (books self.now).units)) ∷ asked 16 (unit_at (books self.now) unit).standing.inside ∷ []) }
        ensures row { IfOk result (λ row. row ≡ unit_at (books self.now) unit) }
    {
        let row = self.units().get(unit).copied().ok_or(BookRefusal::NoUnit)?;
        if !row.standing.inside {
            return Err(BookRefusal::Out);
        }
        Ok(row)
    }

    // Whether one more entry of this round may stand.
    fn entry_room(&self) -> Result<(), BookRefusal>
        ensures { refused book_question result ≡ first_no (asked 20 (nat_lt (length (books self.now).entries) 1024) ∷ []) }
    {
        if self.standing_entries() < MOST_ENTRIES {
            Ok(())
        } else {
            Err(BookRefusal::EntriesFull)
        }
    }

    pub fn exit_questions(&self, terms: Terms, unit: usize, price: u32) -> Result<(), BookRefusal>
        ensures { refused book_question result ≡ first_no (exit_questions terms (books self.now) unit price) }
    {
        let row = self.unit_in(unit)?;
        // The price lies above the floor: no range leaves its first number out.
        if price <= terms.floor || price > terms.cap {
            return Err(BookRefusal::Price);
        }
        if row.enrolled.side == Side::Taker && price > terms.threshold {
            return Err(BookRefusal::Threshold);
        }
        self.entry_room()
    }

    pub fn years_questions(&self, unit: usize, years: u32) -> Result<(), BookRefusal>
        ensures { refused book_question result ≡ first_no (years_questions (books self.now) unit years) }
    {
        let row = self.unit_in(unit)?;
        if !(1..row.standing.years).contains(&years) {
            return Err(BookRefusal::Years);
        }
        self.entry_room()
    }

    pub fn back_questions(&self) -> Result<(), BookRefusal>
        ensures { refused book_question result ≡ first_no (back_questions (books self.now)) }
    {
        if self.standing_entries() == 0 {
            return Err(BookRefusal::NoEntry);
        }
        Ok(())
    }
}
