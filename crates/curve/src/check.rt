ghost use Rattle.std.specs.Prelude.{◌≡◌, is_ok};
ghost use Rattle.std.specs.List.{list_all};
ghost use Rattle.curve.specs.Corners.{neighbours, in_range, rises, near, corner_questions, accepted};
ghost use Rattle.curve.specs.Questions.{refused, question, first_no};

use crate::corner::{CEILING, Corner, MOST_PENCE};
use crate::refusal::CurveRefusal;
use crate::side::Shape;

const MOST_CORNERS: usize = 16;

const WIDEST_GAP: u32 = 10_000_000;

fn are_in_range(corners: &[Corner]) -> bool
    ensures { result ≡ list_all in_range corners.now }
{
    corners.iter().all(|corner| {
        corner.price <= MOST_PENCE && (1..=CEILING).contains(&corner.quantity)
    })
}

fn rises(corner: &Corner, next: &Corner) -> bool
    ensures { result ≡ rises corner.now next.now }
{
    corner.quantity < next.quantity && next.price <= corner.price
}

// `is_sorted_by` asks every corner and the next one.
fn are_in_order(corners: &[Corner]) -> bool
    ensures { result ≡ neighbours rises corners.now }
{
    corners.is_sorted_by(rises)
}

fn is_near(corner: &Corner, next: &Corner) -> bool
    ensures { result ≡ near corner.now next.now }
{
    next.quantity.saturating_sub(corner.quantity) <= WIDEST_GAP
}

fn are_near(corners: &[Corner]) -> bool
    ensures { result ≡ neighbours near corners.now }
{
    corners.is_sorted_by(is_near)
}

// The questions put to the corners of a curve, in order.
pub(crate) fn check(shape: Shape, corners: &[Corner]) -> Result<(), CurveRefusal>
    ensures refusal { refused question result ≡ first_no (corner_questions shape corners.now) }
    ensures accepts { is_ok result ≡ accepted shape corners.now }
{
    if !(1..=MOST_CORNERS).contains(&corners.len()) {
        return Err(CurveRefusal::CornerCount);
    }
    if !are_in_range(corners) {
        return Err(CurveRefusal::CornerRange);
    }
    if !are_in_order(corners) {
        return Err(CurveRefusal::CornerOrder);
    }
    if shape == Shape::Lines && !are_near(corners) {
        return Err(CurveRefusal::CornerGap);
    }
    Ok(())
}
