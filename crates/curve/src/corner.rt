// The largest quantity of a curve, in kW.
pub const CEILING: u32 = 200_000_000;

// The highest price of a curve, and the highest cap of an auction, in pence per kW and year.
pub const MOST_PENCE: u32 = 10_000;

// A corner of a demand curve: up to `quantity` kW, the price there in pence per kW and year.
#[derive(Clone, Copy, PartialEq, Eq, Debug)]
pub struct Corner {
    pub quantity: u32,
    pub price: u32,
}
