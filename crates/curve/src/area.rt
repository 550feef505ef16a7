ghost use Rattle.std.specs.Prelude.{◌≡◌, ◌*◌, ◌^◌, ◌<◌, ◌≤◌, pos, ◌-ℤ◌, ◌*ℤ◌};
ghost use Rattle.curve.specs.Meaning.{ceiling};

// An area, in pence-kW: `parts` over twice the `width`. It is small enough for weighing to stay within 128 bits.
#[derive(Clone, Copy)]
pub struct Area {
    pub parts: u128,
    pub width: u32,
    ghost some: { 0 < width },
    ghost narrow: { width ≤ ceiling },
    ghost small: { parts ≤ 800000000000000000000 },
}

impl Area {
    // The parts, over twice the product of both widths.
    fn over_both(self, other: Area) -> i128
        ensures value { result ≡ pos (self.parts * other.width) }
        ensures small { self.parts * other.width ≤ 2 ^ 98 }
    {
        // `as` is proved to lose nothing; `i128::try_from` would answer an error that cannot come
        (self.parts * u128::from(other.width)) as i128
    }

    // The area from here to `high`, over twice the product of both widths.
    pub(crate) fn gap(self, high: Area) -> i128
        ensures { result ≡ pos (high.parts * self.width) -ℤ pos (self.parts * high.width) }
    {
        high.over_both(self) - self.over_both(high)
    }

    fn twice_both_widths(self, other: Area) -> u64
        ensures { result ≡ 2 * (self.width * other.width) }
    {
        2 * (u64::from(self.width) * u64::from(other.width))
    }

    // A sum, over twice the product of both widths.
    pub(crate) fn goal(self, high: Area, sum: i64) -> i128
        ensures { result ≡ sum *ℤ pos (2 * (self.width * high.width)) }
    {
        i128::from(sum) * i128::from(self.twice_both_widths(high))
    }
}
