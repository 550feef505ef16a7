ghost use Rattle.std.specs.Prelude.{◌≡◌, ◌+◌, ◌-◌, ◌≤◌, true};
ghost use Rattle.auction.specs.Sound.{book_above, shut_above};
ghost use Rattle.book.specs.Views.{books};

use crate::clocks::Stage;
use book::Book;
use ranking::ExitRanking;

mod awards;
mod entries;
pub(crate) mod open;
mod questions;
mod roll;
mod rounds;
mod standing;
mod turns;

// One auction: its numbers, its book, and the curve and the order that it was opened with. `top` is the cap of the present round, which
// changes, so that `top`, `spread` and `threshold` are no `Prices`.
// Contracts read it as `state C.Curve.meaning O.Order.ahead`: a model's Value may hold no function, nor name a bound's members.
#[derive(Drop)]
pub struct Auction<C, O> {
    number: u16,
    stage: Stage,
    round: u32,
    top: u32,
    spread: u32,
    threshold: u32,
    book: Book,
    curve: C,
    order: ExitRanking<O>,
    ghost low: { top ≤ 10000 },
    ghost falls: { 1 ≤ spread },
    ghost counted: { round + top ≤ 10001 },
    ghost left: { shut_above stage (top - spread) ≡ true },
    ghost above: { book_above (top - spread) (books book) ≡ true },
}
