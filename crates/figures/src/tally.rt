// How many figures there were.

ghost use Rattle.std.specs.Prelude.{◌≡◌};
ghost use Rattle.figures.specs.Counts.{counted};

// How many figures were shown, and how many of them agree with what they should be.
#[derive(Clone, Copy, Default)]
pub struct Tally {
    pub shown: u32,
    pub agree: u32,
}

impl Tally {
    // Counts one more figure.
    pub fn count(&mut self, agrees: bool)
        ensures { self.new ≡ counted self.old agrees }
    {
        self.shown = self.shown.saturating_add(1);
        if agrees {
            self.agree = self.agree.saturating_add(1);
        }
    }
}
