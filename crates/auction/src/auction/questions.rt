ghost use Rattle.std.specs.Prelude.{◌≡◌, [], ◌∷◌};
ghost use Rattle.auction.specs.State.{current, terms_of, floor_of};
ghost use Rattle.auction.specs.Steps.{auction_question, own_clock};
ghost use Rattle.auction.specs.Views.{state};
ghost use Rattle.curve.specs.Questions.{refused, first_no};

use crate::auction::Auction;
use crate::clocks::Clock;
use crate::kinds::ClockKind;
use crate::refusal::Refusal;
use book::Terms;
use curve::Curve;
use ranking::{Exit, Order};

impl<C: Curve, O: Order<Item = Exit>> Auction<C, O> {
    // The lowest price of the present round.
    pub(super) fn floor(&self) -> u32
        ensures { result ≡ floor_of (state C.Curve.meaning O.Order.ahead self.now) }
    {
        self.top.saturating_sub(self.spread)
    }

    pub(super) fn terms(&self) -> Terms
        ensures { result ≡ terms_of (state C.Curve.meaning O.Order.ahead self.now) }
    {
        Terms {
            cap: self.top,
            floor: self.floor(),
            threshold: self.threshold,
        }
    }

    // Whether a clock is the auction's own.
    fn has_clock<K: ClockKind>(&self, clock: &Clock<K>) -> bool
        ensures { result ≡ current (state C.Curve.meaning O.Order.ahead self.now) K.STAGE clock.now.stamp }
    {
        self.stage == K::STAGE && clock.stamp == self.stamp()
    }

    // Question 9.
    pub(super) fn ask_clock<K: ClockKind>(&self, clock: &Clock<K>) -> Result<(), Refusal>
        ensures { refused auction_question result ≡ first_no (own_clock (state C.Curve.meaning O.Order.ahead self.now) K.STAGE clock.now.stamp ∷ []) }
    {
        if !self.has_clock(clock) {
            return Err(Refusal::Clock);
        }
        Ok(())
    }
}
