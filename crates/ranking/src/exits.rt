// Exits, and their ranking over any tie order.

ghost use Rattle.std.specs.Prelude.{◌≡◌};
ghost use Rattle.ranking.specs.Ahead.{price_ahead};
ghost use Rattle.ranking.specs.Compares.{price_laws};

use crate::names::{Name, Named};
use crate::orders::{Numbered, Order};

// A unit that leaves the auction at a price.
#[derive(Clone, Copy, Default, PartialEq, Eq, Debug)]
pub struct Exit {
    pub unit: usize,
    pub price: u32,
    pub capacity: u32,
    pub years: u32,
    pub random: u32,
    pub name: Name,
}

impl Numbered for Exit {
    ghost unit = { λ e. e.unit };

    fn unit(&self) -> usize {
        self.unit
    }
}

impl Named for Exit {
    ghost name = { λ e. e.name };

    fn name(&self) -> Name {
        self.name
    }
}

// The exit ranking: the lower exit price is ahead, and of equal prices the tie order decides.
#[derive(Drop)]
pub struct ExitRanking<O> {
    pub ties: O,
}

impl<O: Order<Item = Exit>> Order for ExitRanking<O> {
    type Item = Exit;

    ghost ahead = { λ s. price_ahead (O.Order.ahead s.ties) };

    ghost laws = { λ s. price_laws _ (O.Order.laws s.ties) };

    fn ahead(&self, a: &Exit, b: &Exit) -> bool {
        a.price < b.price || a.price == b.price && self.ties.ahead(a, b)
    }
}
