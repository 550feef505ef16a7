ghost use Rattle.std.specs.Prelude.{◌≡◌};
ghost use Rattle.clearing.specs.Finding.{stopped};

use crate::ground::Ground;
use crate::place::Place;

// How a round cleared: the clearing price, the ground, and the stopping place, up to which the ranked exits are awarded.
#[derive(Clone, Copy, PartialEq, Eq, Debug)]
pub struct Settlement {
    pub price: u32,
    pub ground: Ground,
    pub stop: usize,
}

impl Settlement {
    // The settlement that stops at a place.
    pub(crate) fn at(place: Place, ground: Ground) -> Settlement
        ensures { result ≡ stopped ground place }
    {
        Settlement {
            price: place.price,
            ground,
            stop: place.number,
        }
    }
}
