ghost use Rattle.std.specs.Prelude.{◌≡◌, ◌<◌, [], true, ◌||◌, length};
ghost use Rattle.auction.specs.Awards.{among, awarded_exits, award_of};
ghost use Rattle.auction.specs.Reading.{numbered, settlement_of, settlement_read, award_read};
ghost use Rattle.auction.specs.State.{ranked_exits};
ghost use Rattle.auction.specs.Views.{state};
ghost use Rattle.book.specs.Lawful.{out_if_priced};
ghost use Rattle.book.specs.Views.{books};

use crate::auction::Auction;
use crate::clocks::SettledClock;
use crate::ranked::rank_items;
use crate::refusal::Refusal;
use arrayvec::ArrayVec;
use book::{BookRefusal, MOST_UNITS, Unit};
use clearing::{Ground, Round, Settlement, clear};
use curve::Curve;
use ranking::{Exit, Numbered, Order};

// Whether a unit has an exit among these.
fn is_among(unit: usize, exits: &[Exit]) -> bool
    ensures { result ≡ among unit exits.now }
{
    exits.iter().any(|exit| unit == exit.unit)
}

// Whether a unit is awarded, given the exits that are: it is still in, or its exit is one of them. Its exit price is read by
// `let .. else`, a form of docs/DECISIONS.md, Book.
pub(super) fn is_awarded(row: &Unit, unit: usize, awarded: &[Exit]) -> bool
    requires { out_if_priced row.now.standing ≡ true }
    ensures { result ≡ (row.now.standing.inside || among unit awarded.now) }
{
    let Some(_) = row.standing.exit else {
        return true;
    };
    is_among(unit, awarded)
}

impl<C: Curve, O: Order<Item = Exit>> Auction<C, O> {
    // Puts the exits of the round, in their ranking, into an empty lent vector: one that is handed out would be copied. A loop,
    // since `extend` would answer an error that cannot come.
    fn put_exits(&self, exits: &mut ArrayVec<Exit, MOST_UNITS>)
        requires { exits.old.items ≡ [] }
        ensures { exits.new.items ≡ ranked_exits (state C.Curve.meaning O.Order.ahead self.now) }
    {
        for (i, unit) in self.book.units().iter().enumerate() {
            if let Some(exit) = unit.exit_up_to(i, self.top) {
                exits.push(exit);
            }
        }
        rank_items(&self.order, exits);
    }

    // How the round settles if it is closed as things stand; at the floor if it does not clear, which is so of no settled auction.
    pub(super) fn settled(&self) -> Settlement
        ensures { result ≡ settlement_of (state C.Curve.meaning O.Order.ahead self.now) }
    {
        let mut exits = ArrayVec::new();
        self.put_exits(&mut exits);
        let round = Round {
            floor: self.floor(),
            capacity_in: self.book.capacity_in(),
            exits: exits.as_slice(),
        };
        clear(&self.curve, round).unwrap_or(Settlement {
            price: round.floor,
            ground: Ground::AllFit,
            stop: 0,
        })
    }

    // Puts the exits that are awarded, in their ranking, into an empty lent vector.
    pub(super) fn put_awarded(&self, settlement: Settlement, exits: &mut ArrayVec<Exit, MOST_UNITS>)
        requires { exits.old.items ≡ [] }
        ensures { exits.new.items ≡ awarded_exits (state C.Curve.meaning O.Order.ahead self.now) settlement }
    {
        self.put_exits(exits);
        exits.truncate(settlement.stop);
    }

    // The kW and the years of a unit, both 0 if it is awarded nothing.
    fn award_of(&self, settlement: Settlement, unit: usize) -> (u32, u32)
        requires { unit < length (books self.now.book).units }
        ensures { result ≡ award_of (state C.Curve.meaning O.Order.ahead self.now) settlement unit }
    {
        let row = self.book.unit(unit);
        let mut awarded = ArrayVec::new();
        self.put_awarded(settlement, &mut awarded);
        if !is_awarded(&row, unit, awarded.as_slice()) {
            return (0, 0);
        }
        (row.enrolled.capacity, row.years_at(settlement.price))
    }

    // The clearing price, the ground and the stopping place.
    pub fn settlement(&self, clock: &SettledClock) -> Result<Settlement, Refusal>
        ensures { numbered result ≡ settlement_read (state C.Curve.meaning O.Order.ahead self.now) clock.now.stamp }
    {
        self.ask_clock(clock)?;
        Ok(self.settled())
    }

    // The kW and the years that a unit is awarded, both 0 if it is awarded nothing: the rules ask for this pair, and for no Option.
    pub fn award(&self, clock: &SettledClock, unit: usize) -> Result<(u32, u32), Refusal>
        ensures { numbered result ≡ award_read (state C.Curve.meaning O.Order.ahead self.now) clock.now.stamp unit }
    {
        self.ask_clock(clock)?;
        // Asked before anything is settled, so that a refusal costs no pricing.
        if unit >= self.book.count() {
            return Err(Refusal::Book(BookRefusal::NoUnit));
        }
        Ok(self.award_of(self.settled(), unit))
    }
}
