ghost use Rattle.std.specs.Prelude.{◌≡◌, Ok, Err};
ghost use Rattle.curve.specs.Corners.{corner_questions};
ghost use Rattle.curve.specs.Questions.{refused, question, first_no};
ghost use Rattle.selection.specs.Meanings.{curve_meaning};
ghost use Rattle.selection.specs.Selected.{shape, selected_curve};
ghost use Rattle.curve.specs.declared.side.Shape.TheVariants.{Steps, Lines};
ghost use Rattle.curve.specs.OutlineLaws.{curve_laws};
ghost use Rattle.selection.specs.declared.curves.SelectedCurve.TheVariants.{Straight, Stepped};

use crate::curves::SelectedCurve;
use bidfile::CurveChoice;
use curve::{Corner, Curve, CurveRefusal, GivenBack, Sign, Stepped, Straight};

impl SelectedCurve {
    // The curve of the chosen form with these corners, or the corners back with the first question that they fail.
    pub fn make(
        choice: CurveChoice,
        corners: Vec<Corner>,
    ) -> Result<SelectedCurve, GivenBack<Vec<Corner>, CurveRefusal>>
        ensures refusal { refused (λ e. question e.why) result ≡ first_no (corner_questions (shape choice) corners.items) }
        ensures meaning { elim result [ Ok c ↦ curve_meaning c ≡ selected_curve choice corners.items | Err e ↦ Unit {0} ] }
        ensures back { elim result [ Ok c ↦ Unit {0} | Err e ↦ e.value ≡ corners ] }
    {
        match choice {
            CurveChoice::Straight => Ok(SelectedCurve::Straight(Straight::make(corners)?)),
            CurveChoice::Stepped => Ok(SelectedCurve::Stepped(Stepped::make(corners)?)),
        }
    }
}

impl Curve for SelectedCurve {
    ghost meaning = { curve_meaning };

    ghost keeps = { elim [
      | Straight c ↦ curve_laws Lines c.corners.items c.fit
      | Stepped c ↦ curve_laws Steps c.corners.items c.fit
    ] };

    fn demand(&self, price: u32) -> u32 {
        match self {
            SelectedCurve::Straight(curve) => curve.demand(price),
            SelectedCurve::Stepped(curve) => curve.demand(price),
        }
    }

    fn weigh(&self, from: u32, to: u32, sum: i64) -> Result<Sign, CurveRefusal> {
        match self {
            SelectedCurve::Straight(curve) => curve.weigh(from, to, sum),
            SelectedCurve::Stepped(curve) => curve.weigh(from, to, sum),
        }
    }
}
