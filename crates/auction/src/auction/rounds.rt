ghost use Rattle.std.specs.Prelude.{◌≡◌, ◌+◌, [], ◌∷◌};
ghost use Rattle.auction.specs.Answers.{traded, GivesBack, close_answer};
ghost use Rattle.auction.specs.State.{stamp_of, floor_of, in_of};
ghost use Rattle.auction.specs.Endings.{ended_round};
ghost use Rattle.auction.specs.Steps.{auction_question, own_clock, begun, closed, went_on, figures_of};
ghost use Rattle.auction.specs.Views.{state};
ghost use Rattle.curve.specs.Questions.{refused, first_no};
ghost use Rattle.curve.specs.Words.{within};
ghost use Rattle.auction.specs.declared.calls.Answer.TheVariants.{Begun, Opened};

use crate::auction::Auction;
use crate::calls::Figures;
use crate::clocks::{Clock, Closed, EnrolmentClock, OpenClock, ShutClock, Stage, Stamp};
use crate::kinds::ClockKind;
use crate::refusal::Refusal;
use curve::{Curve, GivenBack};
use ranking::{Exit, Order};

impl<C: Curve, O: Order<Item = Exit>> Auction<C, O> {
    // The numbers on the auction's own clock.
    pub(crate) fn stamp(&self) -> Stamp
        ensures { result ≡ stamp_of (state C.Curve.meaning O.Order.ahead self.now) }
    {
        Stamp {
            number: self.number,
            round: self.round,
        }
    }

    fn figures(&self) -> Figures
        ensures { result ≡ figures_of (state C.Curve.meaning O.Order.ahead self.now) }
    {
        Figures {
            capacity_in: self.book.capacity_in(),
            demand: self.curve.demand(self.floor()),
        }
    }

    // Whether the round clears if it is closed as things stand.
    fn clears(&self) -> bool
        ensures { result ≡ within (C.Curve.meaning self.now.curve) (floor_of (state C.Curve.meaning O.Order.ahead self.now)) (in_of (state C.Curve.meaning O.Order.ahead self.now)) }
    {
        self.curve.is_within(self.floor(), self.book.capacity_in())
    }

    // Takes a clock if it is the auction's own, else gives it back.
    fn spend<K: ClockKind + Drop>(
        &self,
        clock: Clock<K>,
    ) -> Result<(), GivenBack<Clock<K>, Refusal>>
        ensures refusal { refused (λ e. auction_question e.why) result ≡ first_no (own_clock (state C.Curve.meaning O.Order.ahead self.now) K.STAGE clock.stamp ∷ []) }
        ensures back { GivesBack clock result }
    {
        self.ask_clock(&clock)
            .map_err(|why| GivenBack { value: clock, why })
    }

    // Ends the enrolment, and opens round 1.
    pub fn begin(
        &mut self,
        clock: EnrolmentClock,
    ) -> Result<OpenClock, GivenBack<EnrolmentClock, Refusal>>
        ensures step { (state C.Curve.meaning O.Order.ahead self.new, traded (λ made. Begun made.stamp) result) ≡ begun (state C.Curve.meaning O.Order.ahead self.old) clock.stamp }
        ensures back { GivesBack clock result }
    {
        self.spend(clock)?;
        self.stage = Stage::Open;
        self.round = 1;
        Ok(Clock::new(self.stamp()))
    }

    // Ends the round, which settles if it clears.
    fn end_round(&mut self) -> Closed
        ensures { (state C.Curve.meaning O.Order.ahead self.new, close_answer (figures_of (state C.Curve.meaning O.Order.ahead self.old)) result) ≡ ended_round (state C.Curve.meaning O.Order.ahead self.old) }
    {
        let stamp = self.stamp();
        if self.clears() {
            self.stage = Stage::Settled;
            return Closed::Settled(Clock::new(stamp));
        }
        self.book.close();
        self.stage = Stage::Shut;
        Closed::Shut(Clock::new(stamp))
    }

    // Closes the round, and answers the capacity in and the demand at the floor.
    pub fn close(
        &mut self,
        clock: OpenClock,
    ) -> Result<(Figures, Closed), GivenBack<OpenClock, Refusal>>
        ensures step { (state C.Curve.meaning O.Order.ahead self.new, traded (λ made. close_answer made.0 made.1) result) ≡ closed (state C.Curve.meaning O.Order.ahead self.old) clock.stamp }
        ensures back { GivesBack clock result }
    {
        self.spend(clock)?;
        let figures = self.figures();
        let closed = self.end_round();
        Ok((figures, closed))
    }

    // Opens the round after one that did not clear.
    #[tactic(auto, using(crate::proofs::Above::above_lower, crate::proofs::Floors::own_shut_floor))]
    pub fn next(&mut self, clock: ShutClock) -> Result<OpenClock, GivenBack<ShutClock, Refusal>>
        ensures step { (state C.Curve.meaning O.Order.ahead self.new, traded (λ made. Opened made.stamp) result) ≡ went_on (state C.Curve.meaning O.Order.ahead self.old) clock.stamp }
        ensures back { GivesBack clock result }
    {
        self.spend(clock)?;
        let floor = self.floor();
        self.stage = Stage::Open;
        self.round += 1;
        self.top = floor;
        Ok(Clock::new(self.stamp()))
    }
}
