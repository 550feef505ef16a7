ghost use Rattle.std.specs.Prelude.{◌≡◌, Ok, Err};
ghost use Rattle.auction.specs.History.{turn as turn_of};
ghost use Rattle.auction.specs.Steps.{auction_question, step};
ghost use Rattle.auction.specs.Views.{state};
ghost use Rattle.auction.specs.declared.calls.Answer.TheVariants.{Refused};

use crate::auction::Auction;
use crate::calls::{Answer, Call, Turn};
use crate::clocks::{Clock, Closed};
use crate::refusal::Refusal;
use curve::Curve;
use ranking::{Exit, Order};

// The answer of a call: what `done` makes of its result, or the number of the question that refused it. A `match`, since
// `map_or_else` is no plainer.
fn told<T, F: FnOnce(T) -> Answer>(res: Result<T, Refusal>, done: F) -> Answer
    requires { F.IsAlwaysCallable done }
    ensures { elim res [ Ok made ↦ F.post done made result | Err why ↦ result ≡ Refused (auction_question why) ] }
{
    match res {
        Ok(made) => done(made),
        Err(why) => Answer::Refused(u32::from(why)),
    }
}

impl<C: Curve, O: Order<Item = Exit>> Auction<C, O> {
    // Makes a call with a clock of these numbers.
    pub(crate) fn call(&mut self, call: Call) -> Answer
        ensures { (state C.Curve.meaning O.Order.ahead self.new, result) ≡ step (state C.Curve.meaning O.Order.ahead self.old) call }
    {
        match call {
            Call::Enrol(stamp, application) => told(
                self.enrol(&Clock::new(stamp), &application),
                Answer::Enrolled,
            ),
            Call::Begin(stamp) => told(
                self.begin(Clock::new(stamp)).map_err(|back| back.why),
                |clock| Answer::Begun(clock.stamp),
            ),
            Call::Exit(stamp, unit, price) => told(
                self.exit(&Clock::new(stamp), unit, price),
                |()| Answer::Entered,
            ),
            Call::Years(stamp, unit, years) => told(
                self.years(&Clock::new(stamp), unit, years),
                |()| Answer::Entered,
            ),
            Call::StepBack(stamp) => told(
                self.step_back(&Clock::new(stamp)),
                |()| Answer::SteppedBack,
            ),
            Call::Close(stamp) => told(
                self.close(Clock::new(stamp)).map_err(|back| back.why),
                |(figures, closed)| match closed {
                    Closed::Shut(clock) => Answer::ClosedShut(figures, clock.stamp),
                    Closed::Settled(clock) => Answer::ClosedSettled(figures, clock.stamp),
                },
            ),
            Call::Next(stamp) => told(
                self.next(Clock::new(stamp)).map_err(|back| back.why),
                |clock| Answer::Opened(clock.stamp),
            ),
        }
    }

    // Makes the call of a turn, and fills in what it answered.
    pub(crate) fn take(&mut self, turn: &mut Turn)
        ensures auction { state C.Curve.meaning O.Order.ahead self.new ≡ (step (state C.Curve.meaning O.Order.ahead self.old) turn.old.call).0 }
        ensures turn { turn.new ≡ turn_of turn.old.call (step (state C.Curve.meaning O.Order.ahead self.old) turn.old.call).1 }
    {
        turn.answer = self.call(turn.call);
    }
}
