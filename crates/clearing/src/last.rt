ghost use Rattle.std.specs.Prelude.{◌≡◌, ◌≤◌, length, drop};
ghost use Rattle.clearing.specs.Finding.{last_place};
ghost use Rattle.clearing.specs.Places.{first_place};
ghost use Rattle.clearing.specs.Premise.{Clearable};

use crate::place::Place;
use crate::round::Round;
use curve::Curve;

// The last place such that all exits up to it fit.
pub(crate) fn last_fit<C: Curve>(curve: &C, round: Round) -> Place
    ensures value { result ≡ last_place (C.meaning curve.now) (first_place round.entry.floor round.entry.capacity_in) round.entry.exits.now }
    ensures inside { result.number ≤ length round.entry.exits.now }
    ensures behind { Clearable result.price result.sum (drop result.number round.entry.exits.now) }
{
    let mut last = Place::first(round.floor, round.capacity_in);
    for exit in round.exits {
        let next = last.after(exit);
        if !curve.is_within(next.price, next.sum) {
            break;
        }
        last = next;
    }
    last
}
