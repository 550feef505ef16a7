ghost use Rattle.std.specs.Prelude.{◌≡◌, true};
ghost use Rattle.auction.specs.State.{current};
ghost use Rattle.rehearsal.specs.Chosen.{auction_state, numbers_of};

use crate::numbers::RoundNumbers;
use auction::{Auction, Clock, ClockKind, Enrolling, Open, Settled, Shut};
use selection::{SelectedCurve, SelectedOrder};

// An auction at the stage that its own clock says, with the numbers of its round; while units enrol, its cap is that of the
// round to come.
#[derive(Drop)]
pub(crate) struct Held<K: ClockKind> {
    pub(crate) auction: Auction<SelectedCurve, SelectedOrder>,
    pub(crate) clock: Clock<K>,
    pub(crate) numbers: RoundNumbers,
    ghost own: { current (auction_state auction) K.STAGE clock.stamp ≡ true },
    ghost counted: { numbers ≡ numbers_of (auction_state auction) },
}

// The auction of a run, by its stage.
#[derive(Drop)]
pub(crate) enum Session {
    Enrolling(Held<Enrolling>),
    Open(Held<Open>),
    Shut(Held<Shut>),
    Settled(Held<Settled>),
}
