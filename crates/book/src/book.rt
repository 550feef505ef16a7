ghost use Rattle.std.specs.Prelude.{◌≡◌, ◌≤◌, true, reverse, vec_capacity};
ghost use Rattle.book.specs.Books.{total_enrolled};
ghost use Rattle.book.specs.Lawful.{lawful};

use crate::entry::Entry;
use crate::table::Table;
use std::alloc::Global;

mod changes;
mod questions;

// The units and this round's entries, under the rule of the book; `total` is the sum of the capacities enrolled.
// Contracts read it as `books`: as a model's Value it would be no plainer, since users cite that every book keeps the rule.
#[derive(Drop)]
pub struct Book {
    table: Table,
    entries: Vec<Entry>,
    total: u32,
    heap: Global,
    ghost kept: { lawful (record { units = table.rows.items; entries = reverse entries.items }) ≡ true },
    ghost summed: { total ≡ total_enrolled table.rows.items },
    ghost wide: { 512 ≤ vec_capacity table.rows },
    ghost long: { 1024 ≤ vec_capacity entries },
}
