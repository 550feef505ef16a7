ghost use Rattle.std.specs.Prelude.{◌≡◌, ◌≤◌, length, drop};
ghost use Rattle.clearing.specs.Finding.{exact_ground, settled_after, found_outcome, outcome_of};
ghost use Rattle.clearing.specs.Grounds.{Outcome};
ghost use Rattle.clearing.specs.Premise.{Clearable};
ghost use Rattle.clearing.specs.Sound.{OnlyOutcome, WhereSettled, StopsNear, AwardsBelow, Best};

use crate::ground::Ground;
use crate::last::last_fit;
use crate::margin::Margin;
use crate::place::Place;
use crate::round::Round;
use crate::settlement::Settlement;
use curve::Curve;
use ranking::Exit;

// The ground where what is in at the last place that fits is exactly the demand.
fn exact_ground(last: Place) -> Ground
    ensures { result ≡ exact_ground last }
{
    if last.number == 0 {
        Ground::FloorExact
    } else {
        Ground::ExitExact
    }
}

// The settlement, from the last place that fits.
fn settle<C: Curve>(curve: &C, last: Place, exits: &[Exit]) -> Settlement
    requires { (last.number ≤ length exits.now) × (Clearable last.price last.sum (drop last.number exits.now)) }
    ensures { result ≡ settled_after (C.meaning curve.now) last exits.now }
{
    if curve.is_exactly(last.price, last.sum) {
        return Settlement::at(last, exact_ground(last));
    }
    let Some(exit) = exits.get(last.number) else {
        return Settlement::at(last, Ground::AllFit);
    };
    let next = last.after(exit);
    Margin { last, next }.settle(curve)
}

// The outcome of a round: its settlement, or none if it does not clear.
fn find_outcome<C: Curve>(curve: &C, round: Round) -> Option<Settlement>
    ensures { result ≡ found_outcome (C.meaning curve.now) round.entry.floor round.entry.capacity_in round.entry.exits.now }
{
    if !curve.is_within(round.floor, round.capacity_in) {
        return None;
    }
    let last = last_fit(curve, round);
    Some(settle(curve, last, round.exits))
}

// Clears a round: to its settlement, or to none if the round does not clear.
pub fn clear<C: Curve>(curve: &C, round: Round) -> Option<Settlement>
    ensures value { result ≡ outcome_of (C.meaning curve.now) round.entry.floor round.entry.capacity_in round.entry.exits.now }
    ensures holds { Outcome (C.meaning curve.now) round.entry.floor round.entry.capacity_in round.entry.exits.now result }
    ensures only { OnlyOutcome (C.meaning curve.now) round.entry.floor round.entry.capacity_in round.entry.exits.now result }
    ensures near { WhereSettled (StopsNear (C.meaning curve.now) round.entry.floor round.entry.capacity_in round.entry.exits.now) result }
    ensures awards { WhereSettled (AwardsBelow round.entry.exits.now) result }
    ensures best { WhereSettled (Best (C.meaning curve.now) round.entry.floor round.entry.capacity_in round.entry.exits.now) result }
{
    find_outcome(curve, round)
}
