ghost use Rattle.std.specs.Prelude.{◌≡◌, ◌<◌, true, length, None};
ghost use Rattle.book.specs.Asked.{enrol_questions, years_questions};
ghost use Rattle.book.specs.Books.{no_books, new_unit, with_unit, with_entry, with_exit, with_years, stepped_back, closed_book};
ghost use Rattle.book.specs.Lawful.{can_leave, stood_lawfully};
ghost use Rattle.book.specs.Views.{books};
ghost use Rattle.curve.specs.Questions.{first_no};

use crate::book::Book;
use crate::entry::{Entry, EntryKind};
use crate::room::Room;
use crate::table::Table;
use crate::terms::Application;
use crate::unit::{Standing, Unit};
use std::mem;

impl Book {
    #[tactic(auto, unfolding(crate::specs::Lawful::lawful, crate::specs::Lawful::lawful_units, crate::specs::Lawful::distinct_names, crate::specs::Lawful::lawful_entries))]
    pub fn new(room: Room) -> Book
        ensures { books result ≡ no_books }
    {
        let Room {
            units,
            entries,
            heap,
        } = room;
        Book {
            table: Table { rows: units },
            entries,
            total: 0,
            heap,
        }
    }

    // Enrols a unit, and answers its number.
    pub fn enrol(&mut self, application: &Application) -> usize
        requires { first_no (enrol_questions (books self.old) application.now) ≡ None }
        ensures number { result ≡ length (books self.old).units }
        ensures book { books self.new ≡ with_unit (books self.old) (new_unit application.now) }
    {
        let number = self.table.rows.len();
        let unit = Unit::new(application);
        self.table.rows.push_reserved(unit);
        self.total += application.capacity;
        number
    }

    // The unit leaves at a price.
    pub fn put_out(&mut self, unit: usize, price: u32)
        requires { can_leave (books self.old) unit ≡ true }
        ensures { books self.new ≡ with_exit (books self.old) unit price }
    {
        let standing = self.unit(unit).standing.out_at(price);
        self.enter(unit, standing, EntryKind::Exit);
    }

    // The unit serves fewer years.
    pub fn serve(&mut self, unit: usize, years: u32)
        requires { first_no (years_questions (books self.old) unit years) ≡ None }
        ensures { books self.new ≡ with_years (books self.old) unit years }
    {
        let standing = self.unit(unit).standing.for_years(years);
        self.enter(unit, standing, EntryKind::Years);
    }

    // An entry of a kind: the unit stands so now. The table is taken out and put back whole (docs/DECISIONS.md, Book).
    fn enter(&mut self, unit: usize, standing: Standing, kind: EntryKind)
        requires lawful { stood_lawfully (books self.old).units unit standing ≡ true }
        requires room { length (books self.old).entries < 1024 }
        ensures { books self.new ≡ with_entry (books self.old) unit standing kind }
    {
        let empty = Table {
            rows: Vec::new(self.heap),
        };
        let mut table = mem::replace(&mut self.table, empty);
        let row = table.rows[unit];
        table.rows[unit] = Unit { standing, ..row };
        self.table = table;
        let former = row.standing;
        self.entries.push_reserved(Entry { kind, unit, former });
    }

    // Undoes the latest entry that stands, if there is one.
    pub fn step_back(&mut self)
        ensures { books self.new ≡ stepped_back (books self.old) }
    {
        if let Some(last) = self.entries.pop() {
            self.table.row_mut(last.unit).stand_again(last.former);
        }
    }

    // The entries go on standing, out of step back's reach.
    #[tactic(auto, unfolding(crate::specs::Lawful::lawful, crate::specs::Lawful::lawful_entries))]
    pub fn close(&mut self)
        ensures { books self.new ≡ closed_book (books self.old) }
    {
        self.entries.clear();
    }
}
