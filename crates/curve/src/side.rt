ghost use Rattle.std.specs.Prelude.{◌≡◌, ◌+◌, ◌-◌, ◌*◌, ◌<◌, ◌≤◌};
ghost use Rattle.curve.specs.Outline.{side as the_side, width as the_width, height as the_height, crossing as the_crossing, Sound};

use crate::area::Area;
use crate::corner::Corner;
use crate::form::Form;

// How the price goes from one corner to the next: by a step, or along a line.
#[derive(Clone, Copy, PartialEq, Eq)]
pub enum Shape {
    Steps,
    Lines,
}

// A side of a curve: the price runs straight from `start`, just past the place `from`, to `end` at the place `to`.
// `Sound` stands in the contracts and not in a ghost field, since specs/ makes sides of any corners, unsound ones too.
#[derive(Clone, Copy)]
pub struct Side {
    pub from: u32,
    pub to: u32,
    pub start: u32,
    pub end: u32,
}

impl Side {
    pub(crate) fn between<S: Form>(corner: Corner, next: Corner) -> Side
        ensures { result ≡ the_side S.SHAPE corner next }
    {
        let start = match S::SHAPE {
            Shape::Steps => next.price,
            Shape::Lines => corner.price,
        };
        Side {
            from: corner.quantity,
            to: next.quantity,
            start,
            end: next.price,
        }
    }

    pub(crate) fn width(self) -> u32
        requires { Sound self }
        ensures { result ≡ the_width self }
    {
        self.to - self.from
    }

    // The place from which on the price is below `price`, rounded up to a whole kW.
    pub(crate) fn crossing(self, price: u32) -> u32
        requires { (Sound self) × (self.end < price) }
        ensures { result ≡ the_crossing self price }
    {
        if price > self.start {
            return self.from;
        }
        let gone = u64::from(self.start - price) * u64::from(self.width());
        let far = gone.div_ceil(u64::from(self.start - self.end));
        // `as` is proved to lose nothing; `u32::try_from` would answer an error that cannot come
        self.from + far as u32
    }

    // The width times the price at a place of the side.
    pub(crate) fn height(self, place: u32) -> u64
        requires { (Sound self) × ((self.from ≤ place) × (place ≤ self.to)) }
        ensures value { result ≡ the_height self place }
        ensures small { result ≤ 4000000000000 }
    {
        u64::from(self.start) * u64::from(self.to - place)
            + u64::from(self.end) * u64::from(place - self.from)
    }

    // Twice the area under the whole side.
    pub(crate) fn twice_area(self) -> u64
        requires { Sound self }
        ensures value { result ≡ the_width self * (self.start + self.end) }
        ensures small { result ≤ 4000000000000 }
    {
        u64::from(self.width()) * u64::from(self.start + self.end)
    }

    // The area under a curve up to a place of this side, where `twice` is twice the area before the side.
    pub(crate) fn area(self, twice: u64, place: u32) -> Area
        requires { (Sound self) × ((self.from ≤ place) × ((place ≤ self.to) × (twice ≤ 20000 * self.from))) }
        ensures parts { result.parts ≡ twice * the_width self + (place - self.from) * (self.start * the_width self + the_height self place) }
        ensures width { result.width ≡ the_width self }
    {
        let width = self.width();
        let heights = u64::from(self.start) * u64::from(width) + self.height(place);
        Area {
            parts: u128::from(twice) * u128::from(width)
                + u128::from(place - self.from) * u128::from(heights),
            width,
        }
    }
}
