ghost use Rattle.std.specs.Prelude.{◌≡◌, []};
ghost use Rattle.auction.specs.Reading.{numbered, settlement_of};
ghost use Rattle.auction.specs.Rolls.{roll_of, roll_read};
ghost use Rattle.auction.specs.Views.{state};

use crate::auction::Auction;
use crate::auction::awards::is_awarded;
use crate::clocks::SettledClock;
use crate::ranked::rank_items;
use crate::refusal::Refusal;
use arrayvec::ArrayVec;
use book::MOST_UNITS;
use curve::Curve;
use ranking::{Exit, Order, RollOrder, RollRow};

impl<C: Curve, O: Order<Item = Exit>> Auction<C, O> {
    // Puts the rows of the awarded units, in the order of the roll, into an empty lent vector. A loop, since `extend` would answer an
    // error that cannot come.
    fn put_rows(&self, rows: &mut ArrayVec<RollRow, MOST_UNITS>)
        requires { rows.old.items ≡ [] }
        ensures { rows.new.items ≡ roll_of (state C.Curve.meaning O.Order.ahead self.now) (settlement_of (state C.Curve.meaning O.Order.ahead self.now)) }
    {
        let settlement = self.settled();
        let mut awarded = ArrayVec::new();
        self.put_awarded(settlement, &mut awarded);
        for (unit, row) in self.book.units().iter().enumerate() {
            if is_awarded(row, unit, awarded.as_slice()) {
                rows.push(RollRow {
                    name: row.enrolled.name,
                    capacity: row.enrolled.capacity,
                    years: row.years_at(settlement.price),
                    unit,
                });
            }
        }
        rank_items(&RollOrder::default(), rows);
    }

    // Writes the rows of the awarded units over the front of the lent ones, in the order of the roll, and answers how many
    // there are: the rules lend Roll a slice, and ask for the count (docs/rules.md, Roll).
    pub fn roll(&self, clock: &SettledClock, rows: &mut [RollRow]) -> Result<usize, Refusal>
        ensures { (numbered result, rows.new) ≡ roll_read (state C.Curve.meaning O.Order.ahead self.now) clock.now.stamp rows.old }
    {
        self.ask_clock(clock)?;
        let mut awarded = ArrayVec::new();
        self.put_rows(&mut awarded);
        if awarded.len() > rows.len() {
            return Err(Refusal::Rows);
        }
        rows[..awarded.len()].copy_from_slice(awarded.as_slice());
        Ok(awarded.len())
    }
}
