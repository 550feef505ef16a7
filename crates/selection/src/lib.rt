// The demand curve and the order of ties that a bid file selects.
#![tactic(auto)]

mod curves;
mod demand;
mod order;
mod ties;

pub use curves::SelectedCurve;
pub use ties::SelectedOrder;
