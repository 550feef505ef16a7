ghost use Rattle.std.specs.Prelude.{◌≡◌};

use crate::kinds::{Enrolling, Open, Settled, Shut};
use std::marker::PhantomData;

// The stage of an auction, which is the kind of its clock.
#[derive(Clone, Copy, PartialEq, Eq, Debug)]
pub enum Stage {
    Enrolling,
    Open,
    Shut,
    Settled,
}

// What a clock carries: the number of its auction and a round.
#[derive(Clone, Copy, PartialEq, Eq, Debug)]
pub struct Stamp {
    pub number: u16,
    pub round: u32,
}

// The clock of an auction at the stage that `K` says.
#[derive(Drop)]
pub struct Clock<K> {
    pub(crate) stamp: Stamp,
    kind: PhantomData<K>,
}

// The clock under which units are enrolled.
pub type EnrolmentClock = Clock<Enrolling>;

// The clock of a round that takes entries.
pub type OpenClock = Clock<Open>;

// The clock of a round that was closed and did not clear.
pub type ShutClock = Clock<Shut>;

// The clock of a round that cleared.
pub type SettledClock = Clock<Settled>;

impl<K> Clock<K> {
    pub(crate) fn new(stamp: Stamp) -> Clock<K>
        ensures { result.stamp ≡ stamp }
    {
        Clock {
            stamp,
            kind: PhantomData,
        }
    }
}

// What closing a round gives: the clock of a round that did not clear, or of one that did.
#[derive(Drop)]
pub enum Closed {
    Shut(ShutClock),
    Settled(SettledClock),
}
