ghost use Rattle.std.specs.Prelude.{◌≡◌, ◌≤◌, true, is_ok, Ok, Err};
ghost use Rattle.curve.specs.Corners.{corner_questions, accepted};
ghost use Rattle.curve.specs.Outline.{sides, price as price_at, outline};
ghost use Rattle.curve.specs.Questions.{refused, question, first_no};
ghost use Rattle.curve.specs.Rules.{Farthest, AreaUnder};
ghost use Rattle.curve.specs.Weighing.{Weighed};
ghost use Rattle.curve.specs.OutlineLaws.{curve_laws};

use crate::check;
use crate::corner::{CEILING, Corner};
use crate::demand::Curve;
use crate::form::{Form, Lines, Steps};
use crate::given_back::GivenBack;
use crate::refusal::CurveRefusal;
use crate::sign::Sign;
use std::marker::PhantomData;

// The curve with these corners, which goes from each to the next by its form.
#[derive(Drop)]
pub struct Cornered<S: Form> {
    pub(crate) corners: Vec<Corner>,
    form: PhantomData<S>,
    ghost fit: { accepted S.SHAPE corners.items ≡ true },
}

// The curve on which a corner's price holds up to its quantity, from the corner before it or from 0.
pub type Stepped = Cornered<Steps>;

// The curve on which the first price holds up to the first corner and then runs straight from corner to corner.
pub type Straight = Cornered<Lines>;

impl<S: Form> Cornered<S> {
    // Questions 1 to 3 over the corners of a curve, and question 4 over those of a straight one.
    pub fn check(corners: &[Corner]) -> Result<(), CurveRefusal>
        ensures refusal { refused question result ≡ first_no (corner_questions S.SHAPE corners.now) }
        ensures accepts { is_ok result ≡ accepted S.SHAPE corners.now }
    {
        check::check(S::SHAPE, corners)
    }

    pub fn new(corners: Vec<Corner>) -> Self
        requires { accepted S.SHAPE corners.items ≡ true }
        ensures { result.corners ≡ corners }
    {
        Cornered {
            corners,
            form: PhantomData,
        }
    }

    // The curve with these corners, or the corners back with the first question that they fail.
    pub fn make(corners: Vec<Corner>) -> Result<Self, GivenBack<Vec<Corner>, CurveRefusal>>
        ensures refusal { refused (λ e. question e.why) result ≡ first_no (corner_questions S.SHAPE corners.items) }
        ensures corners { elim result [ Ok c ↦ c.corners ≡ corners | Err e ↦ e.value ≡ corners ] }
    {
        // a `match`, since `map_err` would move the corners, which the `Ok` way needs
        match Self::check(&corners) {
            Ok(()) => Ok(Self::new(corners)),
            Err(why) => Err(GivenBack {
                value: corners,
                why,
            }),
        }
    }
}

impl<S: Form> Curve for Cornered<S> {
    ghost meaning = { λ c. outline (sides S.SHAPE c.corners.items) };

    ghost keeps = { λ c. curve_laws S.SHAPE c.corners.items c.fit };

    #[tactic(auto, using(crate::specs::OutlineLaws::curve_farthest))]
    fn demand(&self, price: u32) -> u32
        ensures value { result ≡ (outline (sides S.SHAPE self.now.corners.items)).demand price }
        ensures farthest { 1 ≤ price → Farthest (price_at (sides S.SHAPE self.now.corners.items)) price result }
    {
        if price == 0 {
            CEILING
        } else {
            self.reach(price)
        }
    }

    fn weigh(&self, from: u32, to: u32, sum: i64) -> Result<Sign, CurveRefusal>
        ensures weighed { Weighed (outline (sides S.SHAPE self.now.corners.items)) from to sum result }
        ensures area { AreaUnder (outline (sides S.SHAPE self.now.corners.items)) (sides S.SHAPE self.now.corners.items) }
    {
        if from > to || to > CEILING {
            return Err(CurveRefusal::Places);
        }
        Ok(self.compare(from, to, sum))
    }
}
