ghost use Rattle.std.specs.Prelude.{◌≡◌, ◌-◌};
ghost use Rattle.listing.specs.declared.line.Line.TheVariants as line;

use auction::Figures;
use listing::Line;

// A round, its cap, and the spread: what is known of a ROUND line before the round is closed.
#[derive(Clone, Copy)]
pub(crate) struct RoundNumbers {
    pub(crate) round: u32,
    pub(crate) top: u32,
    pub(crate) spread: u32,
}

impl RoundNumbers {
    pub(crate) fn floor(self) -> u32
        ensures { result ≡ self.top - self.spread }
    {
        self.top.saturating_sub(self.spread)
    }

    // The line of the round, closed with these figures.
    pub(crate) fn line(self, figures: Figures) -> Line
        ensures { result ≡ line.Round self.round self.top (self.top - self.spread) figures.capacity_in figures.demand }
    {
        Line::Round {
            round: self.round,
            cap: self.top,
            floor: self.floor(),
            capacity_in: figures.capacity_in,
            demand: figures.demand,
        }
    }
}
