// The result of an auction that has settled.

ghost use Rattle.std.specs.Prelude.{◌≡◌};
ghost use Rattle.auction.specs.Reading.{settlement_of};
ghost use Rattle.auction.specs.Rolls.{roll_of};
ghost use Rattle.rehearsal.specs.Chosen.{auction_state};
ghost use Rattle.rehearsal.specs.Listing.{cleared_line};

use crate::stages::Held;
use arrayvec::{ArrayVec, IntoIter};
use auction::Settled;
use book::MOST_UNITS;
use listing::Line;
use ranking::RollRow;

impl Held<Settled> {
    pub(crate) fn cleared_line(&self) -> Line
        ensures { result ≡ cleared_line (auction_state self.now.auction) }
    {
        Line::from(self.auction.settlement(&self.clock).unwrap())
    }

    // The rows of the roll: at most one for each unit.
    pub(crate) fn awards(&self) -> IntoIter<RollRow, MOST_UNITS>
        ensures { result ≡ roll_of (auction_state self.now.auction) (settlement_of (auction_state self.now.auction)) }
    {
        let mut rows = [RollRow::default(); MOST_UNITS];
        let count = self.auction.roll(&self.clock, &mut rows).unwrap();
        let mut awards = ArrayVec::from(rows);
        awards.truncate(count);
        awards.into_iter()
    }
}
