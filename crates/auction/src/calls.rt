use crate::clocks::Stamp;
use book::Application;

// A call that may change an auction, with its clock as plain numbers: the auction's own clock or any other of that kind.
#[derive(Clone, Copy, PartialEq, Eq, Debug)]
pub enum Call {
    Enrol(Stamp, Application),
    Begin(Stamp),
    Exit(Stamp, usize, u32),
    Years(Stamp, usize, u32),
    StepBack(Stamp),
    Close(Stamp),
    Next(Stamp),
}

// What a Close answers: the capacity in and the demand at the floor.
#[derive(Clone, Copy, PartialEq, Eq, Debug)]
pub struct Figures {
    pub capacity_in: u32,
    pub demand: u32,
}

// What a call answered: the number of a question, or its result with the clock that it gave. Laws over answers speak of numbers,
// by the rules, so a refusal is the number and not its kind.
#[derive(Clone, Copy, PartialEq, Eq, Debug)]
pub enum Answer {
    Refused(u32),
    Enrolled(usize),
    Begun(Stamp),
    Entered,
    SteppedBack,
    ClosedShut(Figures, Stamp),
    ClosedSettled(Figures, Stamp),
    Opened(Stamp),
}

// A call, and a place for its answer.
#[derive(Clone, Copy, PartialEq, Eq, Debug)]
pub struct Turn {
    pub call: Call,
    pub answer: Answer,
}
