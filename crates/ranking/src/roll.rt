// The rows of the roll, and their order.

ghost use Rattle.std.specs.Prelude.{◌≡◌};

use crate::names::{ByName, Name, Named};
use crate::orders::Numbered;

// What the roll says of an awarded unit.
#[derive(Clone, Copy, Default, PartialEq, Eq, Debug)]
pub struct RollRow {
    pub name: Name,
    pub capacity: u32,
    pub years: u32,
    pub unit: usize,
}

impl Numbered for RollRow {
    ghost unit = { λ r. r.unit };

    fn unit(&self) -> usize {
        self.unit
    }
}

impl Named for RollRow {
    ghost name = { λ r. r.name };

    fn name(&self) -> Name {
        self.name
    }
}

// The order of the roll.
pub type RollOrder = ByName<RollRow>;
