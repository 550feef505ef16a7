ghost use Rattle.std.specs.Prelude.{◌≡◌};
ghost use Rattle.auction.specs.Live.{live_clock};
ghost use Rattle.auction.specs.State.{stamp_of};
ghost use Rattle.auction.specs.Views.{state};

use crate::auction::Auction;
use crate::clocks::{Clock, Stage};
use crate::live::Live;
use curve::Curve;
use ranking::{Exit, Order};

impl<C: Curve, O: Order<Item = Exit>> Auction<C, O> {
    // The clock that the auction stands at.
    pub(crate) fn live(&self) -> Live
        ensures { live_clock result ≡ ((state C.Curve.meaning O.Order.ahead self.now).stage, stamp_of (state C.Curve.meaning O.Order.ahead self.now)) }
    {
        let stamp = self.stamp();
        match self.stage {
            Stage::Enrolling => Live::Enrolling(Clock::new(stamp)),
            Stage::Open => Live::Open(Clock::new(stamp)),
            Stage::Shut => Live::Shut(Clock::new(stamp)),
            Stage::Settled => Live::Settled(Clock::new(stamp)),
        }
    }
}
