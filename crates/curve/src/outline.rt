ghost use Rattle.std.specs.Prelude.{◌≡◌, ◌≤◌, Ok};
ghost use Rattle.curve.specs.Meaning.{ceiling};
ghost use Rattle.curve.specs.Measures.{Measured};
ghost use Rattle.curve.specs.Outline.{origin as the_origin, reach as the_reach, sides, outline};
ghost use Rattle.curve.specs.Weighing.{Tells};

use crate::area::Area;
use crate::corner::Corner;
use crate::cornered::Cornered;
use crate::form::Form;
use crate::side::Side;
use crate::sign::{Sign, sign_of};

// `reach` and `measure` are loops, since each turn needs the corner before, and `measure` what was summed so far.
impl<S: Form> Cornered<S> {
    // Where the curve begins: before the first corner the price is the first corner's.
    fn origin(&self) -> Corner
        ensures { result ≡ the_origin self.now.corners.items }
    {
        Corner {
            quantity: 0,
            price: self.corners.first().map_or(0, |first| first.price),
        }
    }

    // How far the price stays at least as high as `price`, rounded up to a whole kW.
    pub(crate) fn reach(&self, price: u32) -> u32
        ensures { result ≡ the_reach 0 (sides S.SHAPE self.now.corners.items) price }
    {
        let mut last = self.origin();
        for corner in &self.corners {
            let side = Side::between::<S>(last, *corner);
            if side.end < price {
                return side.crossing(price);
            }
            last = *corner;
        }
        last.quantity
    }

    // The area under the curve up to a place.
    pub(crate) fn measure(&self, place: u32) -> Area
        requires { place ≤ ceiling }
        ensures { Measured (sides S.SHAPE self.now.corners.items) place result }
    {
        let mut twice = 0;
        let mut last = self.origin();
        for corner in &self.corners {
            let side = Side::between::<S>(last, *corner);
            if place <= side.to {
                return side.area(twice, place);
            }
            twice += side.twice_area();
            last = *corner;
        }
        Area {
            parts: u128::from(twice),
            width: 1,
        }
    }

    // How the area between two places compares with a sum of pence.
    pub(crate) fn compare(&self, from: u32, to: u32, sum: i64) -> Sign
        requires { (from ≤ to) × (to ≤ ceiling) }
        ensures { Tells (outline (sides S.SHAPE self.now.corners.items)) from to sum (Ok result) }
    {
        let low = self.measure(from);
        let high = self.measure(to);
        sign_of(low.gap(high), low.goal(high, sum))
    }
}
