// Clearing: from a floor, the capacity in and the ranked exits to price, ground and stopping place, over any demand curve.
#![tactic(auto)]

mod ground;
mod last;
mod margin;
mod place;
mod round;
mod settlement;
mod settling;

pub use ground::Ground;
pub use margin::takes_next;
pub use place::Place;
pub use round::Round;
pub use settlement::Settlement;
pub use settling::clear;
