// The words that stand for an answer in what is printed.

ghost use Rattle.std.specs.Prelude.{Some};
ghost use Rattle.figures.specs.Texts.{verdict_text, found_text};

use curve::Sign;
use std::fmt;

// Whether a figure is the one that is due.
#[derive(Clone, Copy)]
pub struct Verdict(pub bool);

impl fmt::Display for Verdict {
    ghost output = { λ verdict. Some (verdict_text verdict.0) };

    fn fmt<W: fmt::Write>(&self, f: &mut fmt::Formatter<W>) -> fmt::Result {
        f.write_str(if self.0 { "agrees" } else { "DIFFERS" })
    }
}

// How an area compares with a sum, if it may be weighed.
#[derive(Clone, Copy, PartialEq)]
pub struct Found(pub Option<Sign>);

impl fmt::Display for Found {
    ghost output = { λ found. Some (found_text found.0) };

    fn fmt<W: fmt::Write>(&self, f: &mut fmt::Formatter<W>) -> fmt::Result {
        f.write_str(match self.0 {
            Some(Sign::Below) => "below",
            Some(Sign::Level) => "level with",
            Some(Sign::Above) => "above",
            None => "refused against",
        })
    }
}
