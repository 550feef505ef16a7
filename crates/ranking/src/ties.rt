// The tie order by rule.

ghost use Rattle.std.specs.Prelude.{◌≡◌};
ghost use Rattle.ranking.specs.Ahead.{rule_ahead};
ghost use Rattle.std.proofs.Common.{rules};

use crate::exits::Exit;
use crate::orders::Order;
use std::cmp::Reverse;

// The larger capacity is ahead, then the fewer years, then the lower random number, then the lower unit number.
#[derive(Clone, Copy)]
pub struct ByRule;

impl Order for ByRule {
    type Item = Exit;

    ghost ahead = { λ _. rule_ahead };

    ghost laws = { Prim.search rules };

    fn ahead(&self, a: &Exit, b: &Exit) -> bool {
        (Reverse(a.capacity), a.years, a.random, a.unit)
            < (Reverse(b.capacity), b.years, b.random, b.unit)
    }
}
