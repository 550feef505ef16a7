ghost use Rattle.std.specs.Prelude.{◌≡◌};
ghost use Rattle.auction.specs.Answers.{answer};
ghost use Rattle.auction.specs.Steps.{enrolled, exited, served, went_back};
ghost use Rattle.auction.specs.Views.{state};
ghost use Rattle.auction.specs.declared.calls.Answer.TheVariants.{Enrolled, Entered, SteppedBack};

use crate::auction::Auction;
use crate::clocks::{EnrolmentClock, OpenClock};
use crate::refusal::Refusal;
use book::Application;
use curve::Curve;
use ranking::{Exit, Order};

impl<C: Curve, O: Order<Item = Exit>> Auction<C, O> {
    // Enrols a unit, and answers its number.
    pub fn enrol(
        &mut self,
        clock: &EnrolmentClock,
        application: &Application,
    ) -> Result<usize, Refusal>
        ensures { (state C.Curve.meaning O.Order.ahead self.new, answer Enrolled result) ≡ enrolled (state C.Curve.meaning O.Order.ahead self.old) clock.now.stamp application.now }
    {
        self.ask_clock(clock)?;
        self.book.enrol_questions(application)?;
        Ok(self.book.enrol(application))
    }

    // The unit leaves at a price.
    pub fn exit(&mut self, clock: &OpenClock, unit: usize, price: u32) -> Result<(), Refusal>
        ensures { (state C.Curve.meaning O.Order.ahead self.new, answer (λ _. Entered) result) ≡ exited (state C.Curve.meaning O.Order.ahead self.old) clock.now.stamp unit price }
    {
        self.ask_clock(clock)?;
        self.book.exit_questions(self.terms(), unit, price)?;
        self.book.put_out(unit, price);
        Ok(())
    }

    // The unit serves fewer years.
    pub fn years(&mut self, clock: &OpenClock, unit: usize, years: u32) -> Result<(), Refusal>
        ensures { (state C.Curve.meaning O.Order.ahead self.new, answer (λ _. Entered) result) ≡ served (state C.Curve.meaning O.Order.ahead self.old) clock.now.stamp unit years }
    {
        self.ask_clock(clock)?;
        self.book.years_questions(unit, years)?;
        self.book.serve(unit, years);
        Ok(())
    }

    // Undoes the latest entry of this round that stands.
    pub fn step_back(&mut self, clock: &OpenClock) -> Result<(), Refusal>
        ensures { (state C.Curve.meaning O.Order.ahead self.new, answer (λ _. SteppedBack) result) ≡ went_back (state C.Curve.meaning O.Order.ahead self.old) clock.now.stamp }
    {
        self.ask_clock(clock)?;
        self.book.back_questions()?;
        self.book.step_back();
        Ok(())
    }
}
