// The sheet on which the figures are shown, each beside the one that is due, and counted.

ghost use Rattle.std.specs.Prelude.{◌≡◌, Decides, OnOk};
ghost use Rattle.std.proofs.Common.{rules};
ghost use Rattle.figures.specs.Counts.{counted, CountedFor};

use crate::tally::Tally;
use crate::words::Verdict;
use std::{fmt, io};

// What is shown beside what is due: two that are equal are the same.
pub trait Figure: PartialEq + fmt::Display + Copy {
    ghost same: { (x y : Self) → Decides (Self.eq x y) (x ≡ y) };
}

impl Figure for u32 {
    ghost same = { Prim.search rules };
}

#[derive(Drop)]
pub struct Sheet<'a> {
    pub rt: &'a HostRuntime,
    pub tally: Tally,
}

impl<'a> Sheet<'a> {
    pub fn new(rt: &'a HostRuntime) -> Sheet<'a>
        ensures { result.tally ≡ record { shown = 0; agree = 0 } }
    {
        Sheet {
            rt,
            tally: Tally::default(),
        }
    }

    // Shows a figure after `what`, beside the one that is due.
    pub fn show<T: Figure>(
        &mut self,
        what: impl fmt::Display + Drop,
        figure: T,
        due: T,
    ) -> io::Result<()>
        ensures { OnOk result (CountedFor (figure ≡ due) self.old.tally self.new.tally) }
    {
        let agrees = figure == due;
        self.count(agrees, format_args!("{what}{figure}, due {due}"))
    }

    // Ends a figure's line with the verdict, and counts the figure.
    pub fn count(&mut self, agrees: bool, line: impl fmt::Display + Drop) -> io::Result<()>
        ensures { OnOk result (self.new.tally ≡ counted self.old.tally agrees) }
    {
        let rt = self.rt;
        let verdict = Verdict(agrees);
        println!(rt; "{line}: {verdict}")?;
        self.tally.count(agrees);
        Ok(())
    }
}
