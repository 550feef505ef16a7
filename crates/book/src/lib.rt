// The book of an auction: its units, the entries of the round, and the questions that are asked of them.
#![tactic(auto)]

mod book;
mod class;
mod entry;
mod names;
mod refusal;
mod room;
mod table;
mod terms;
mod unit;

pub use book::Book;
pub use class::{Class, Side, UnknownNumber};
pub use entry::{Entry, EntryKind};
pub use refusal::BookRefusal;
pub use room::{MOST_ENTRIES, MOST_UNITS, Room};
pub use terms::{Application, Terms};
pub use unit::{Enrolment, Standing, Unit};
