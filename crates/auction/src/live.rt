use crate::clocks::{EnrolmentClock, OpenClock, SettledClock, ShutClock};

// The clock that an auction stands at.
#[derive(Drop)]
pub enum Live {
    Enrolling(EnrolmentClock),
    Open(OpenClock),
    Shut(ShutClock),
    Settled(SettledClock),
}
