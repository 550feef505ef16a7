// What a call answers, as far as its questions go.

ghost use Rattle.std.specs.Prelude.{◌≡◌, ℕ};
ghost use Rattle.std.proofs.Common.{rules};
ghost use Rattle.curve.specs.Questions.{refused};

use crate::sheet::Figure;
use std::fmt;

// No question was answered "no".
pub const ACCEPTED: Outcome = Outcome(None);

// The number of the question that was answered "no", if any.
#[derive(Clone, Copy, PartialEq)]
pub struct Outcome(pub Option<u32>);

impl fmt::Display for Outcome {
    fn fmt<W: fmt::Write>(&self, f: &mut fmt::Formatter<W>) -> fmt::Result {
        match self.0 {
            None => write!(f, "accepted"),
            Some(number) => write!(f, "question {number}"),
        }
    }
}

impl Figure for Outcome {
    ghost same = { Prim.search rules };
}

impl Outcome {
    // What a call answered, refused by a question that has a number.
    pub fn of<T: Drop, E: Into<u32>>(answer: Result<T, E>) -> Outcome
        ensures { (number : E → ℕ) → ((e : E) (n : ℕ) → E.converts e n → n ≡ number e) → result.0 ≡ refused number answer }
    {
        Outcome(answer.err().map(|refusal| refusal.into()))
    }
}
