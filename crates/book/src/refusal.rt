ghost use Rattle.std.specs.Prelude.{◌≡◌};
ghost use Rattle.book.specs.Asked.{book_question};

// The questions of the book that can be answered "no".
#[derive(Clone, Copy, PartialEq, Eq, Debug)]
pub enum BookRefusal {
    Full,
    Capacity,
    Total,
    ClassOrYears,
    Name,
    NoUnit,
    Out,
    Price,
    Threshold,
    Years,
    EntriesFull,
    NoEntry,
}

// The number under which docs/questions.md lists the question.
impl From<BookRefusal> for u32 {
    ghost from_gives = { λ refusal number. number ≡ book_question refusal };

    fn from(refusal: BookRefusal) -> u32 {
        match refusal {
            BookRefusal::Full => 10,
            BookRefusal::Capacity => 11,
            BookRefusal::Total => 12,
            BookRefusal::ClassOrYears => 13,
            BookRefusal::Name => 14,
            BookRefusal::NoUnit => 15,
            BookRefusal::Out => 16,
            BookRefusal::Price => 17,
            BookRefusal::Threshold => 18,
            BookRefusal::Years => 19,
            BookRefusal::EntriesFull => 20,
            BookRefusal::NoEntry => 21,
        }
    }
}
