// Demand curves: the interface that the auction is written over, and the two curves that are built.
#![tactic(auto)]

mod area;
mod check;
mod corner;
mod cornered;
mod demand;
mod form;
mod given_back;
mod outline;
mod refusal;
mod side;
mod sign;

pub use corner::{CEILING, Corner, MOST_PENCE};
pub use cornered::{Cornered, Stepped, Straight};
pub use demand::{Curve, words_hold};
pub use form::{Form, Lines, Steps};
pub use given_back::GivenBack;
pub use refusal::CurveRefusal;
pub use sign::Sign;

#[cfg(test)]
mod tests {
    use super::*;
    use std::alloc::Global;
    use std::test::Fail;

    const TOP: u32 = 200_000_000;

    fn curve<S: Form>(heap: Global, corners: &[Corner]) -> Result<Cornered<S>, Fail> {
        Cornered::make(corners.to_vec(heap)?).map_err(|_| Fail::new("no curve"))
    }

    fn at(quantity: u32, price: u32) -> Corner {
        Corner { quantity, price }
    }

    #[test]
    fn widths_between_corners(rt: HostRuntime) {
        let far = [at(1_000, 100), at(10_001_001, 0)];
        assert!(rt; Stepped::check(&far).is_ok());
        assert!(rt; Straight::check(&far) == Err(CurveRefusal::CornerGap));
        // from 0 to the first corner any width goes
        assert!(rt; Straight::check(&[at(TOP, 10_000)]).is_ok());
    }

    #[test]
    fn one_corner_with_a_price_at_its_end(rt: HostRuntime) -> Result<(), Fail> {
        let line: Straight = curve(rt.alloc(), &[at(500, 40)])?;
        assert_eq!(rt; line.demand(40), 500);
        assert_eq!(rt; line.demand(41), 0);
        assert_eq!(rt; line.demand(0), TOP);
        assert_eq!(rt; line.demand(u32::MAX), 0);
        // past the last corner there is no area
        assert!(rt; line.weigh(400, TOP, 4_000) == Ok(Sign::Level));
        assert!(rt; line.weigh(500, TOP, 0) == Ok(Sign::Level));
        Ok(())
    }

    #[test]
    fn equal_prices_and_places_on_corners(rt: HostRuntime) -> Result<(), Fail> {
        let line: Straight = curve(rt.alloc(), &[at(10, 6), at(20, 6), at(23, 0)])?;
        assert_eq!(rt; line.demand(6), 20);
        assert_eq!(rt; line.demand(5), 21);
        assert_eq!(rt; line.demand(1), 23);
        let steps: Stepped = curve(rt.alloc(), &[at(10, 6), at(20, 6), at(23, 2)])?;
        assert_eq!(rt; steps.demand(3), 20);
        assert_eq!(rt; steps.demand(2), 23);
        assert!(rt; steps.weigh(10, 20, 60) == Ok(Sign::Level));
        assert!(rt; steps.weigh(19, 23, 12) == Ok(Sign::Level));
        Ok(())
    }

    #[test]
    fn weighing_across_widths(rt: HostRuntime) -> Result<(), Fail> {
        // 5 * 9, then 3 * (9 + 5) / 2, then 1 of 7 wide from 5 to 4: 45 + 21 + 69/14
        let line: Straight = curve(rt.alloc(), &[at(5, 9), at(8, 5), at(15, 4)])?;
        assert!(rt; line.weigh(0, 9, 70) == Ok(Sign::Above));
        assert!(rt; line.weigh(0, 9, 71) == Ok(Sign::Below));
        assert!(rt; line.weigh(0, 8, 66) == Ok(Sign::Level));
        assert!(rt; line.weigh(2, 8, 48) == Ok(Sign::Level));
        Ok(())
    }

    #[test]
    fn largest_arguments(rt: HostRuntime) -> Result<(), Fail> {
        let line: Straight = curve(rt.alloc(), &[at(TOP - 10_000_000, 10_000), at(TOP, 0)])?;
        assert!(rt; line.weigh(0, TOP, i64::MAX) == Ok(Sign::Below));
        assert!(rt; line.weigh(0, TOP, i64::MIN) == Ok(Sign::Above));
        assert!(rt; line.weigh(0, TOP, 1_950_000_000_000) == Ok(Sign::Level));
        assert!(rt; line.weigh(u32::MAX, u32::MAX, 0) == Err(CurveRefusal::Places));
        assert!(rt; line.is_within(10_000, TOP - 10_000_000));
        assert!(rt; line.is_exactly(1, TOP - 1_000));
        Ok(())
    }
}
