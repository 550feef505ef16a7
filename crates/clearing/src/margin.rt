ghost use Rattle.std.specs.Prelude.{◌≡◌, ◌≤◌};
ghost use Rattle.curve.specs.Weighing.{sign_number};
ghost use Rattle.clearing.specs.Finding.{at_margin};
ghost use Rattle.clearing.specs.Margins.{dearer_by, weighed, sign_of, takes};
ghost use Rattle.clearing.specs.Premise.{Bounded};

use crate::ground::Ground;
use crate::place::Place;
use crate::settlement::Settlement;
use curve::{Curve, Sign};

// The margin of a round: the last place that fits, and the next.
#[derive(Clone, Copy)]
pub(crate) struct Margin {
    pub(crate) last: Place,
    pub(crate) next: Place,
    ghost in_order: { (Bounded last) × ((Bounded next) × (last.sum ≤ next.sum)) },
}

impl Margin {
    // What the next place costs more than the last that fits, in pence.
    fn dearer_by(self) -> i64
        ensures { result ≡ dearer_by self.last self.next }
    {
        // `as` is proved to lose nothing; `i64::try_from` would answer an error that cannot come
        self.next.cost() as i64 - self.last.cost() as i64
    }

    // How the area under the curve that the next place adds compares with what that place costs more. The curve cannot
    // refuse: the sums come in order and are up to the ceiling.
    fn weigh<C: Curve>(self, curve: &C) -> Sign
        ensures { sign_number result ≡ sign_of (weighed (C.meaning curve.now) self.last self.next) }
    {
        curve
            .weigh(self.last.sum, self.next.sum, self.dearer_by())
            .unwrap()
    }

    // The settlement at the margin.
    pub(crate) fn settle<C: Curve>(self, curve: &C) -> Settlement
        ensures { result ≡ at_margin (C.meaning curve.now) self.last self.next }
    {
        if takes_next(self.last, self.next, self.weigh(curve)) {
            Settlement::at(self.next, Ground::NextTaken)
        } else {
            Settlement::at(self.last, Ground::NextLeft)
        }
    }
}

// Whether the exit between the last place that fits and the next is taken, given how the two weigh against each other.
pub fn takes_next(last: Place, next: Place, sign: Sign) -> bool
    ensures { result ≡ takes last next (sign_number sign) }
{
    sign == Sign::Above
}
