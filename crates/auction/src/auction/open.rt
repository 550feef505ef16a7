ghost use Rattle.std.specs.Prelude.{◌≡◌, None, Ok, Err};
ghost use Rattle.auction.specs.Steps.{auction_question, open_questions};
ghost use Rattle.auction.specs.Views.{state, opened_with};
ghost use Rattle.curve.specs.Questions.{refused, first_no};

use crate::auction::Auction;
use crate::clocks::{Clock, EnrolmentClock, Stage, Stamp};
use crate::refusal::Refusal;
use crate::setting::{Prices, Setting};
use book::Book;
use curve::{Curve, GivenBack, MOST_PENCE};
use ranking::{Exit, ExitRanking, Order};

// The questions of Open.
pub fn check_open<C: Curve>(prices: Prices, curve: &C) -> Result<(), Refusal>
    ensures { refused auction_question result ≡ first_no (open_questions (C.Curve.meaning curve.now) prices.«cap» prices.spread prices.threshold) }
{
    let cap = prices.cap;
    if !(1..=MOST_PENCE).contains(&cap) || curve.demand(cap) == 0 {
        return Err(Refusal::CapOrDemand);
    }
    if !(1..=cap).contains(&prices.spread) {
        return Err(Refusal::Spread);
    }
    if prices.threshold > cap {
        return Err(Refusal::Threshold);
    }
    Ok(())
}

impl<C: Curve, O: Order<Item = Exit>> Auction<C, O> {
    // An auction with no unit enrolled.
    #[tactic(auto, using(crate::proofs::Above::open_allowed, crate::proofs::Above::above_none))]
    fn new(number: u16, prices: Prices, setting: Setting<C, O>) -> Auction<C, O>
        requires { first_no (open_questions (C.Curve.meaning setting.curve) prices.«cap» prices.spread prices.threshold) ≡ None }
        ensures { state C.Curve.meaning O.Order.ahead result ≡ opened_with C.Curve.meaning O.Order.ahead number prices setting }
    {
        let Setting { curve, order, room } = setting;
        Auction {
            number,
            stage: Stage::Enrolling,
            round: 0,
            top: prices.cap,
            spread: prices.spread,
            threshold: prices.threshold,
            book: Book::new(room),
            curve,
            order: ExitRanking { ties: order },
        }
    }

    // Opens an auction, with its enrolment clock; refused, it gives curve, order and room back. A `match`, since a closure for
    // `map_err` would move the setting, which the `Ok` way needs.
    pub fn open(
        number: u16,
        prices: Prices,
        setting: Setting<C, O>,
    ) -> Result<(Auction<C, O>, EnrolmentClock), GivenBack<Setting<C, O>, Refusal>>
        ensures refusal { refused (λ e. auction_question e.why) result ≡ first_no (open_questions (C.Curve.meaning setting.curve) prices.«cap» prices.spread prices.threshold) }
        ensures opens { elim result [ Ok made ↦ (state C.Curve.meaning O.Order.ahead made.0 ≡ opened_with C.Curve.meaning O.Order.ahead number prices setting) × (made.1.stamp ≡ record { number = number; round = 0 }) | Err e ↦ e.value ≡ setting ] }
    {
        match check_open(prices, &setting.curve) {
            Ok(()) => Ok((
                Auction::new(number, prices, setting),
                Clock::new(Stamp { number, round: 0 }),
            )),
            Err(why) => Err(GivenBack {
                value: setting,
                why,
            }),
        }
    }
}
