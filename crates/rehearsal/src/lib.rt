// The run of a bid file: its records are made into calls on an auction, and their answers into the lines of a listing.
#![tactic(auto)]

mod calls;
mod numbers;
mod opening;
mod progress;
mod results;
mod run;
mod session;
mod stages;
mod storage;
mod taking;
mod waiting;

pub use run::{Run, rehearse};
pub use storage::Storage;
