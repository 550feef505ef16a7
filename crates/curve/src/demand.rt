ghost use Rattle.std.specs.Prelude.{◌≡◌, ◌==◌, nat_le};
ghost use Rattle.curve.specs.Meaning.{Meaning, Laws};
ghost use Rattle.curve.specs.Weighing.{Weighed};
ghost use Rattle.curve.specs.Words.{within, exactly, Words};

use crate::refusal::CurveRefusal;
use crate::sign::Sign;

// A demand curve: how much capacity the buyer wants at a price, and what the area under the curve is worth.
pub trait Curve {
    ghost meaning: { Self → Meaning };

    // The capacity wanted at a price, in kW.
    fn demand(&self, price: u32) -> u32
        ensures value { result ≡ (meaning self.now).demand price };

    // How the area between two places compares with a sum of pence, exactly.
    fn weigh(&self, from: u32, to: u32, sum: i64) -> Result<Sign, CurveRefusal>
        ensures weighed { Weighed (meaning self.now) from to sum result };

    // Whether a sum of capacities is within the demand at a price.
    #[tactic(auto, unfolding(crate::specs::Words::within))]
    fn is_within(&self, price: u32, capacity: u32) -> bool
        ensures value { result ≡ within (meaning self.now) price capacity }
    {
        capacity <= self.demand(price)
    }

    // Whether a sum of capacities is exactly the demand at a price.
    #[tactic(auto, unfolding(crate::specs::Words::exactly))]
    fn is_exactly(&self, price: u32, capacity: u32) -> bool
        ensures value { result ≡ exactly (meaning self.now) price capacity }
    {
        capacity == self.demand(price)
    }

    ghost keeps: { (c : Self) → Laws (meaning c) };
}

// What the layers above may use of `within` and `exactly`, for every curve that keeps the laws.
pub fn words_hold<C: Curve>(curve: &C)
    ensures { Words (C.meaning curve.now) }
{}
