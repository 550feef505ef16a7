ghost use Rattle.std.specs.Prelude.{◌≡◌};
ghost use Rattle.selection.specs.Meanings.{order_ahead};
ghost use Rattle.selection.specs.Selected.{selected_ties};
ghost use Rattle.ranking.specs.Compares.{rule_laws, name_ties_laws};
ghost use Rattle.selection.specs.declared.ties.SelectedOrder.TheVariants.{ByRule, ByName};

use crate::ties::SelectedOrder;
use bidfile::OrderChoice;
use ranking::{ByName, ByRule, Exit, Order};

impl From<OrderChoice> for SelectedOrder {
    ghost from_gives = { λ choice order. order_ahead order ≡ selected_ties choice };

    fn from(choice: OrderChoice) -> SelectedOrder {
        match choice {
            OrderChoice::ByRule => SelectedOrder::ByRule,
            OrderChoice::ByName => SelectedOrder::ByName,
        }
    }
}

impl Order for SelectedOrder {
    type Item = Exit;

    ghost ahead = { order_ahead };

    ghost laws = { elim [ ByRule ↦ rule_laws | ByName ↦ name_ties_laws ] };

    fn ahead(&self, a: &Exit, b: &Exit) -> bool {
        match self {
            SelectedOrder::ByRule => ByRule.ahead(a, b),
            SelectedOrder::ByName => ByName::default().ahead(a, b),
        }
    }
}
