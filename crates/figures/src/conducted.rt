// An auction that is conducted call by call, on the sheet that shows what its calls come to.

ghost use Rattle.std.specs.Prelude.{◌≡◌};
ghost use Rattle.std.proofs.Common.{rules};
ghost use Rattle.auction.specs.Steps.{enrolled, exited, served, went_back, closed as closed_so};
ghost use Rattle.auction.specs.Views.{state};

use crate::outcome::Outcome;
use crate::sheet::{Figure, Sheet};
use anyhow::Context;
use auction::{Auction, Closed, EnrolmentClock, Figures, OpenClock, SettledClock};
use book::Application;
use curve::Curve;
use ranking::{Exit, Order};
use std::{fmt, io};

// The number that a unit is given.
#[derive(Clone, Copy, PartialEq)]
pub struct UnitNumber(pub usize);

impl fmt::Display for UnitNumber {
    fn fmt<W: fmt::Write>(&self, f: &mut fmt::Formatter<W>) -> fmt::Result {
        let unit = self.0;
        write!(f, "unit {unit}")
    }
}

impl Figure for UnitNumber {
    ghost same = { Prim.search rules };
}

// Whether a round that is closed clears.
#[derive(Clone, Copy, PartialEq)]
pub enum End {
    Shut,
    Settled,
}

impl fmt::Display for End {
    fn fmt<W: fmt::Write>(&self, f: &mut fmt::Formatter<W>) -> fmt::Result {
        f.write_str(match self {
            End::Shut => "shut",
            End::Settled => "settled",
        })
    }
}

// What the close of a round comes to.
#[derive(Clone, Copy, PartialEq)]
pub struct Ending {
    pub figures: Figures,
    pub end: End,
}

impl fmt::Display for Ending {
    fn fmt<W: fmt::Write>(&self, f: &mut fmt::Formatter<W>) -> fmt::Result {
        let capacity_in = self.figures.capacity_in;
        let demand = self.figures.demand;
        let end = self.end;
        write!(f, "{capacity_in} in, demand {demand}, {end}")
    }
}

impl Figure for Ending {
    ghost same = { Prim.search rules };
}

// What a unit is awarded.
#[derive(Clone, Copy, PartialEq)]
pub struct Award {
    pub capacity: u32,
    pub years: u32,
}

impl fmt::Display for Award {
    fn fmt<W: fmt::Write>(&self, f: &mut fmt::Formatter<W>) -> fmt::Result {
        let capacity = self.capacity;
        let years = self.years;
        write!(f, "{capacity} kW, years {years}")
    }
}

impl Figure for Award {
    ghost same = { Prim.search rules };
}

#[derive(Drop)]
pub struct Conducted<'s, 'r, C, O> {
    pub sheet: &'s mut Sheet<'r>,
    pub auction: Auction<C, O>,
}

impl<'s, 'r, C: Curve, O: Order<Item = Exit>> Conducted<'s, 'r, C, O> {
    pub fn enrol(
        &mut self,
        clock: &EnrolmentClock,
        name: &str,
        application: &Application,
        due: UnitNumber,
    ) -> anyhow::Result<()>
        ensures { state C.Curve.meaning O.Order.ahead self.new.auction ≡ (enrolled (state C.Curve.meaning O.Order.ahead self.old.auction) clock.now.stamp application.now).0 }
    {
        let unit = self
            .auction
            .enrol(clock, application)
            .ok()
            .context("a unit is not enrolled")?;
        self.sheet
            .show(format_args!("enrol {name}: "), UnitNumber(unit), due)?;
        Ok(())
    }

    pub fn exit(
        &mut self,
        clock: &OpenClock,
        unit: usize,
        price: u32,
        due: Outcome,
    ) -> io::Result<()>
        ensures { state C.Curve.meaning O.Order.ahead self.new.auction ≡ (exited (state C.Curve.meaning O.Order.ahead self.old.auction) clock.now.stamp unit price).0 }
    {
        let answer = Outcome::of(self.auction.exit(clock, unit, price));
        let what = format_args!("exit of unit {unit} at {price}: ");
        self.sheet.show(what, answer, due)
    }

    pub fn years(
        &mut self,
        clock: &OpenClock,
        unit: usize,
        years: u32,
        due: Outcome,
    ) -> io::Result<()>
        ensures { state C.Curve.meaning O.Order.ahead self.new.auction ≡ (served (state C.Curve.meaning O.Order.ahead self.old.auction) clock.now.stamp unit years).0 }
    {
        let answer = Outcome::of(self.auction.years(clock, unit, years));
        let what = format_args!("years of unit {unit} to {years}: ");
        self.sheet.show(what, answer, due)
    }

    pub fn step_back(&mut self, clock: &OpenClock, due: Outcome) -> io::Result<()>
        ensures { state C.Curve.meaning O.Order.ahead self.new.auction ≡ (went_back (state C.Curve.meaning O.Order.ahead self.old.auction) clock.now.stamp).0 }
    {
        let answer = Outcome::of(self.auction.step_back(clock));
        self.sheet.show("step back: ", answer, due)
    }

    // Closes a round, and gives the clock that it ends with.
    pub fn close(&mut self, clock: OpenClock, due: Ending) -> anyhow::Result<Closed>
        ensures { state C.Curve.meaning O.Order.ahead self.new.auction ≡ (closed_so (state C.Curve.meaning O.Order.ahead self.old.auction) clock.stamp).0 }
    {
        let (figures, closed) = self
            .auction
            .close(clock)
            .ok()
            .context("a round is not closed")?;
        let end = match &closed {
            Closed::Shut(_) => End::Shut,
            Closed::Settled(_) => End::Settled,
        };
        self.sheet.show("close: ", Ending { figures, end }, due)?;
        Ok(closed)
    }

    pub fn award(&mut self, clock: &SettledClock, unit: usize, due: Award) -> anyhow::Result<()>
        ensures { self.new.auction ≡ self.old.auction }
    {
        let (capacity, years) = self
            .auction
            .award(clock, unit)
            .ok()
            .context("an award is not read")?;
        let what = format_args!("award of unit {unit}: ");
        self.sheet.show(what, Award { capacity, years }, due)?;
        Ok(())
    }
}
