ghost use Rattle.std.specs.Prelude.{◌≡◌, ◌≤◌};
ghost use Rattle.clearing.specs.Places.{first_place, place_after, cost};
ghost use Rattle.clearing.specs.Premise.{Bounded, HasRoom, top_cost};

use ranking::Exit;

// A place in the ranking of a round's exits: how many exits lie before it, the price of the last of them (the floor if
// there is none), and the capacity that is in together with theirs.
#[derive(Clone, Copy)]
pub struct Place {
    pub number: usize,
    pub price: u32,
    pub sum: u32,
}

impl Place {
    // The place before every exit.
    pub(crate) fn first(floor: u32, capacity_in: u32) -> Place
        ensures { result ≡ first_place floor capacity_in }
    {
        Place {
            number: 0,
            price: floor,
            sum: capacity_in,
        }
    }

    // The place behind one more exit.
    pub(crate) fn after(self, exit: &Exit) -> Place
        requires { HasRoom self exit.now }
        ensures { result ≡ place_after self exit.now }
    {
        Place {
            number: self.number + 1,
            price: exit.price,
            sum: self.sum + exit.capacity,
        }
    }

    // What the sum costs at the price, in pence.
    pub(crate) fn cost(self) -> u64
        requires { Bounded self }
        ensures value { result ≡ cost self }
        ensures most { result ≤ top_cost }
    {
        u64::from(self.price) * u64::from(self.sum)
    }
}
