// The auction: clocks, calls and rounds, over any demand curve and any tie order.
#![tactic(auto)]

mod auction;
mod calls;
mod clocks;
mod conducting;
mod kinds;
mod laws;
mod live;
mod ranked;
mod refusal;
mod setting;

pub use auction::Auction;
pub use auction::open::check_open;
pub use calls::{Answer, Call, Figures, Turn};
pub use clocks::{Clock, Closed, EnrolmentClock, OpenClock, SettledClock, ShutClock, Stage, Stamp};
pub use conducting::conduct;
pub use kinds::{ClockKind, Enrolling, Open, Settled, Shut};
pub use laws::laws_hold;
pub use live::Live;
pub use refusal::Refusal;
pub use setting::{Prices, Setting};
