ghost use Rattle.std.specs.Prelude.{◌≡◌, Ok, Err};
ghost use Rattle.auction.specs.History.{played, ended};
ghost use Rattle.auction.specs.Live.{live_clock};
ghost use Rattle.auction.specs.Promise.{calls_of, Promise};
ghost use Rattle.auction.specs.Reading.{SettledPriced};
ghost use Rattle.auction.specs.State.{stamp_of};
ghost use Rattle.auction.specs.Steps.{auction_question, open_questions};
ghost use Rattle.auction.specs.Views.{state, opened_with};
ghost use Rattle.curve.specs.Questions.{refused, first_no};

use crate::auction::Auction;
use crate::calls::Turn;
use crate::live::Live;
use crate::refusal::Refusal;
use crate::setting::{Prices, Setting};
use curve::{Curve, GivenBack};
use ranking::{Exit, Order};

// Makes the calls in order, and fills in what each answered.
fn make_turns<C: Curve, O: Order<Item = Exit>>(auction: &mut Auction<C, O>, turns: &mut [Turn])
    ensures turns { turns.new ≡ played (state C.Curve.meaning O.Order.ahead auction.old) (calls_of turns.old) }
    ensures auction { state C.Curve.meaning O.Order.ahead auction.new ≡ ended (state C.Curve.meaning O.Order.ahead auction.old) (calls_of turns.old) }
{
    for turn in turns.iter_mut() {
        auction.take(turn);
    }
}

// Conducts a whole auction: opens it, makes the calls in order, each with a clock of the numbers it carries, and fills in
// the answers; gives the auction with the clock that it stands at. Refused by Open, it leaves the turns as they were.
pub fn conduct<C: Curve, O: Order<Item = Exit>>(
    number: u16,
    prices: Prices,
    setting: Setting<C, O>,
    turns: &mut [Turn],
) -> Result<(Auction<C, O>, Live), GivenBack<Setting<C, O>, Refusal>>
    ensures refusal { refused (λ e. auction_question e.why) result ≡ first_no (open_questions (C.Curve.meaning setting.curve) prices.«cap» prices.spread prices.threshold) }
    ensures back { elim result [ Ok made ↦ Unit {0} | Err e ↦ (e.value ≡ setting) × (turns.new ≡ turns.old) ] }
    ensures plays { elim result [ Ok made ↦ (turns.new ≡ played (opened_with C.Curve.meaning O.Order.ahead number prices setting) (calls_of turns.old)) × (state C.Curve.meaning O.Order.ahead made.0 ≡ ended (opened_with C.Curve.meaning O.Order.ahead number prices setting) (calls_of turns.old)) | Err e ↦ Unit {0} ] }
    ensures live { elim result [ Ok made ↦ live_clock made.1 ≡ ((state C.Curve.meaning O.Order.ahead made.0).stage, stamp_of (state C.Curve.meaning O.Order.ahead made.0)) | Err e ↦ Unit {0} ] }
    ensures promise { elim result [ Ok made ↦ Promise (opened_with C.Curve.meaning O.Order.ahead number prices setting) turns.new (state C.Curve.meaning O.Order.ahead made.0) | Err e ↦ Unit {0} ] }
    ensures settled { elim result [ Ok made ↦ SettledPriced (state C.Curve.meaning O.Order.ahead made.0) | Err e ↦ Unit {0} ] }
{
    let (mut auction, _) = Auction::open(number, prices, setting)?;
    make_turns(&mut auction, turns);
    let live = auction.live();
    Ok((auction, live))
}
