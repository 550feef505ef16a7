// The auction that the terms and the corners of a file open.

ghost use Rattle.std.specs.Prelude.{◌≡◌};
ghost use Rattle.rehearsal.specs.Chosen.{auction_state};
ghost use Rattle.rehearsal.specs.Progress.{opening};
ghost use Rattle.rehearsal.specs.Takes.{opened_as};

use crate::numbers::RoundNumbers;
use crate::stages::Held;
use crate::storage::Gathering;
use auction::{Auction, Enrolling, Prices, Setting};
use listing::Unopenable;
use selection::{SelectedCurve, SelectedOrder};

// The number of every run's auction, which a file does not say.
const OWN_NUMBER: u16 = 1;

impl Gathering {
    // Makes the curve and opens the auction.
    pub(crate) fn open(self) -> Result<Held<Enrolling>, Unopenable>
        ensures { opened_as result (λ held. auction_state held.auction) ≡ opening self.terms self.corners.items }
    {
        let Gathering {
            terms,
            corners,
            room,
        } = self;
        let prices = Prices {
            cap: terms.cap,
            spread: terms.spread,
            threshold: terms.threshold,
        };
        let curve = SelectedCurve::make(terms.curve, corners)?;
        let order = SelectedOrder::from(terms.order);
        let setting = Setting { curve, order, room };
        let (auction, clock) = Auction::open(OWN_NUMBER, prices, setting)?;
        let numbers = RoundNumbers {
            round: 0,
            top: terms.cap,
            spread: terms.spread,
        };
        Ok(Held {
            auction,
            clock,
            numbers,
        })
    }
}
