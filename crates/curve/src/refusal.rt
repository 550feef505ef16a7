ghost use Rattle.std.specs.Prelude.{◌≡◌};
ghost use Rattle.curve.specs.Questions.{question};

// The questions of this layer that can be answered "no".
#[derive(Clone, Copy, PartialEq, Eq, Debug)]
pub enum CurveRefusal {
    CornerCount,
    CornerRange,
    CornerOrder,
    CornerGap,
    Places,
}

// The number under which docs/questions.md lists the question.
impl From<CurveRefusal> for u32 {
    ghost from_gives = { λ refusal number. number ≡ question refusal };

    fn from(refusal: CurveRefusal) -> u32 {
        match refusal {
            CurveRefusal::CornerCount => 1,
            CurveRefusal::CornerRange => 2,
            CurveRefusal::CornerOrder => 3,
            CurveRefusal::CornerGap => 4,
            CurveRefusal::Places => 5,
        }
    }
}
