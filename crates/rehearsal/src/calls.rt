// The calls that records are made into, and the first line of what each answers.

ghost use Rattle.std.specs.Prelude.{◌≡◌, ℕ, length, Some};
ghost use Rattle.auction.specs.Steps.{enrolled, exited, served, went_back, closed};
ghost use Rattle.bidfile.specs.Items.{item_of, unit_item};
ghost use Rattle.auction.specs.declared.clocks.Stage.TheVariants as stage;
ghost use Rattle.rehearsal.specs.Chosen.{auction_state};
ghost use Rattle.rehearsal.specs.Events.{application, side_of};
ghost use Rattle.rehearsal.specs.Saying.{said_no, reply};
ghost use Rattle.rehearsal.specs.Hearing.{after_begin, after_next, called, Callable};
ghost use Rattle.rehearsal.specs.Sessions.{session_state};

use crate::numbers::RoundNumbers;
use crate::stages::{Held, Session};
use auction::{Closed, Enrolling, Open, Refusal, Shut};
use bidfile::{ExitRecord, Placed, Record, SideChoice, UnitRecord, YearsRecord};
use book::{Application, Side};
use listing::Line;

// The line of a call that refused, if it did.
fn refusal_line<T: Drop>(res: Result<T, Refusal>, place: usize) -> Option<Line>
    ensures { result ≡ said_no place res }
{
    let why = res.err()?;
    Some(Line::Refused {
        question: u32::from(why),
        place,
    })
}

// No impl of From may stand here and for `applied`: neither type is of this crate.
fn side(choice: SideChoice) -> Side
    ensures { result ≡ side_of choice }
{
    match choice {
        SideChoice::Taker => Side::Taker,
        SideChoice::Maker => Side::Maker,
    }
}

// What a unit record applies for; its name has eight bytes.
fn applied(unit: UnitRecord<&[u8]>) -> Application
    requires { length unit.name.now ≡ 8 }
    ensures { result ≡ application (unit_item unit.entry) }
{
    // copied, since what `try_into` answers is a relation that the proof would have to unfold
    let mut name = [0; 8];
    name.copy_from_slice(unit.name);
    Application {
        capacity: unit.capacity,
        class: unit.class,
        side: side(unit.side),
        years: unit.years,
        random: unit.random,
        name,
    }
}

impl Held<Enrolling> {
    // The place comes beside what was matched out of the record, here and at `Held<Open>`: a whole `Placed` would be matched
    // a second time.
    fn enrol(&mut self, place: usize, said: &Application) -> Option<Line>
        ensures { (auction_state self.new.auction, result) ≡ reply place (auction_state self.old.auction) (enrolled (auction_state self.old.auction) self.old.clock.stamp said.now) }
    {
        let result = self.auction.enrol(&self.clock, said);
        refusal_line(result, place)
    }

    // Makes the call of a unit record.
    pub(crate) fn call(mut self, said: Placed) -> (Session, Option<Line>)
        requires { Callable stage.Enrolling (item_of said.«record») }
        ensures { (session_state result.0, result.1) ≡ called said.entry.place (auction_state self.auction) (item_of said.entry.«record») }
    {
        let Record::Unit(unit) = said.record else {
            unreachable()
        };
        let line = self.enrol(said.place, &applied(unit));
        (Session::Enrolling(self), line)
    }

    // Ends the enrolment, and opens round 1.
    pub(crate) fn begin(self) -> Held<Open>
        ensures { auction_state result.auction ≡ after_begin (auction_state self.auction) }
    {
        let Held {
            mut auction,
            clock,
            numbers,
        } = self;
        let clock = auction.begin(clock).unwrap();
        let numbers = RoundNumbers {
            round: 1,
            ..numbers
        };
        Held {
            auction,
            clock,
            numbers,
        }
    }
}

impl Held<Open> {
    fn exit(&mut self, place: usize, said: ExitRecord) -> Option<Line>
        ensures { (auction_state self.new.auction, result) ≡ reply place (auction_state self.old.auction) (exited (auction_state self.old.auction) self.old.clock.stamp said.unit said.price) }
    {
        let result = self
            .auction
            .exit(&self.clock, said.unit as usize, said.price);
        refusal_line(result, place)
    }

    fn years(&mut self, place: usize, said: YearsRecord) -> Option<Line>
        ensures { (auction_state self.new.auction, result) ≡ reply place (auction_state self.old.auction) (served (auction_state self.old.auction) self.old.clock.stamp said.unit said.years) }
    {
        let result = self
            .auction
            .years(&self.clock, said.unit as usize, said.years);
        refusal_line(result, place)
    }

    fn step_back(&mut self, place: usize) -> Option<Line>
        ensures { (auction_state self.new.auction, result) ≡ reply place (auction_state self.old.auction) (went_back (auction_state self.old.auction) self.old.clock.stamp) }
    {
        let result = self.auction.step_back(&self.clock);
        refusal_line(result, place)
    }

    // Closes the round, with the line that says so.
    fn close(self) -> (Session, Line)
        ensures { (at : ℕ) → (session_state result.0, Some result.1) ≡ reply at (auction_state self.auction) (closed (auction_state self.auction) self.clock.stamp) }
    {
        let Held {
            mut auction,
            clock,
            numbers,
        } = self;
        let (figures, closed) = auction.close(clock).unwrap();
        let line = numbers.line(figures);
        match closed {
            Closed::Shut(clock) => {
                let shut = Held {
                    auction,
                    clock,
                    numbers,
                };
                (Session::Shut(shut), line)
            }
            Closed::Settled(clock) => {
                let settled = Held {
                    auction,
                    clock,
                    numbers,
                };
                (Session::Settled(settled), line)
            }
        }
    }

    // Makes the call of an exit, years, step back or close record.
    pub(crate) fn call(mut self, said: Placed) -> (Session, Option<Line>)
        requires { Callable stage.Open (item_of said.«record») }
        ensures { (session_state result.0, result.1) ≡ called said.entry.place (auction_state self.auction) (item_of said.entry.«record») }
    {
        let line = match said.record {
            Record::Exit(exit) => self.exit(said.place, exit),
            Record::Years(years) => self.years(said.place, years),
            Record::StepBack => self.step_back(said.place),
            Record::Close => {
                let (session, line) = self.close();
                return (session, Some(line));
            }
            _ => unreachable(),
        };
        (Session::Open(self), line)
    }
}

impl Held<Shut> {
    // Opens the next round; the old floor is its cap.
    pub(crate) fn next(self) -> Held<Open>
        ensures { auction_state result.auction ≡ after_next (auction_state self.auction) }
    {
        let Held {
            mut auction,
            clock,
            numbers,
        } = self;
        let clock = auction.next(clock).unwrap();
        let numbers = RoundNumbers {
            round: numbers.round + 1,
            top: numbers.floor(),
            ..numbers
        };
        Held {
            auction,
            clock,
            numbers,
        }
    }
}
