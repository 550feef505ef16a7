ghost use Rattle.std.specs.Prelude.{◌≡◌, ◌<◌, vec_len, slice_index_or};
ghost use Rattle.std.specs.Borrow.{follows, sem};
ghost use Rattle.std.specs.Vec.{with_item};
ghost use Rattle.book.specs.contracts.table.Table.{the_row};
ghost use Rattle.book.specs.contracts.unit.Unit.{the_row as unit_row};

use crate::unit::Unit;

// The units by number, plain: the rule about them is the book's.
#[derive(Drop)]
pub struct Table {
    pub(crate) rows: Vec<Unit>,
}

impl Table {
    // Lends one unit, to be changed where it stands.
    pub(crate) fn row_mut(&mut self, i: usize) -> &mut Unit
        requires { i < vec_len self.old.rows }
        ensures value { result.now ≡ slice_index_or self.old.rows.items i result.now }
        ensures* follows { sem 𝓛 (follows the_row unit_row self.entry.ghost_name result.ghost_name (λ w. record { rows = with_item self.old.rows i w })) }
    {
        &mut self.rows[i]
    }
}
