// Orders as an interface, the exit ranking over any tie order, the order of the roll, and the one ordered list.
#![tactic(auto)]

mod exits;
mod list;
mod names;
mod orders;
mod roll;
mod ties;

pub use exits::{Exit, ExitRanking};
pub use list::{insert, one_ranking, rank};
pub use names::{ByName, Name, Named};
pub use orders::{Numbered, Order};
pub use roll::{RollOrder, RollRow};
pub use ties::ByRule;
