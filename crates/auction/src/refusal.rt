ghost use Rattle.std.specs.Prelude.{◌≡◌};
ghost use Rattle.auction.specs.Steps.{auction_question};
ghost use Rattle.auction.specs.declared.refusal.Refusal.TheVariants.{Book};

use book::BookRefusal;

// The questions of the auction that can be answered "no", with those of its book.
#[derive(Clone, Copy, PartialEq, Eq, Debug)]
pub enum Refusal {
    CapOrDemand,
    Spread,
    Threshold,
    Clock,
    Book(BookRefusal),
    Rows,
}

// The number under which docs/questions.md lists the question.
impl From<Refusal> for u32 {
    ghost from_gives = { λ refusal r. r ≡ auction_question refusal };

    fn from(refusal: Refusal) -> u32 {
        match refusal {
            Refusal::CapOrDemand => 6,
            Refusal::Spread => 7,
            Refusal::Threshold => 8,
            Refusal::Clock => 9,
            Refusal::Book(refusal) => u32::from(refusal),
            Refusal::Rows => 22,
        }
    }
}

impl From<BookRefusal> for Refusal {
    ghost from_gives = { λ refusal r. r ≡ Book refusal };

    fn from(refusal: BookRefusal) -> Refusal {
        Refusal::Book(refusal)
    }
}
