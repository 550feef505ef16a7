ghost use Rattle.std.specs.Prelude.{◌≡◌};
ghost use Rattle.curve.specs.Weighing.{sign_number, compared};

use std::cmp::Ordering;

// How an area compares with a sum: below it, level with it, or above it.
// Not std's `Ordering`, to which this crate could give no number by `From`.
#[derive(Clone, Copy, PartialEq, Eq, Debug)]
pub enum Sign {
    Below,
    Level,
    Above,
}

// How one number compares with another.
pub(crate) fn sign_of(gap: i128, goal: i128) -> Sign
    ensures { sign_number result ≡ compared gap goal }
{
    match gap.cmp(&goal) {
        Ordering::Less => Sign::Below,
        Ordering::Equal => Sign::Level,
        Ordering::Greater => Sign::Above,
    }
}

impl From<Sign> for i32 {
    ghost from_gives = { λ sign number. number ≡ sign_number sign };

    fn from(sign: Sign) -> i32 {
        match sign {
            Sign::Below => -1,
            Sign::Level => 0,
            Sign::Above => 1,
        }
    }
}
