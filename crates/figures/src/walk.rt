// One task from beginning to end: a curve is checked and made, and the clock walks down it.

ghost use Rattle.std.specs.Prelude.{◌≡◌, ◌-◌};

use crate::curves::{K, made};
use crate::words::Found;
use curve::{Curve, Straight};
use std::io;

const CAP: u32 = 7_000;

const SPREAD: u32 = 3_000;

fn floor_of(cap: u32, spread: u32) -> u32
    ensures { result ≡ «cap» - spread }
{
    cap.saturating_sub(spread)
}

// Each round's cap, floor and demand at the floor, down to the floor 0.
fn walk<C: Curve>(rt: &HostRuntime, curve: &C, first_cap: u32, spread: u32) -> io::Result<()> {
    if spread == 0 {
        return Ok(());
    }
    for passed in 0..first_cap.div_ceil(spread) {
        let top = first_cap.saturating_sub(passed.saturating_mul(spread));
        let round = passed.saturating_add(1);
        let floor = floor_of(top, spread);
        let demand = curve.demand(floor);
        println!(rt; "round {round}: cap {top}, floor {floor}, demand {demand}")?;
    }
    Ok(())
}

fn weigh_once<C: Curve>(
    rt: &HostRuntime,
    curve: &C,
    from: u32,
    to: u32,
    sum: i64,
) -> io::Result<()> {
    match curve.weigh(from, to, sum) {
        Ok(sign) => {
            let found = Found(Some(sign));
            println!(rt; "the area from {from} to {to} is {found} {sum}")
        }
        Err(refusal) => {
            let number = u32::from(refusal);
            println!(rt; "the area from {from} to {to} is refused by question {number}")
        }
    }
}

pub fn show(rt: &HostRuntime) -> anyhow::Result<()> {
    for corner in K {
        let quantity = corner.quantity;
        let price = corner.price;
        println!(rt; "corner {quantity} kW at {price}")?;
    }
    let straight: Straight = made(rt.alloc())?;
    println!(rt; "the straight curve is made; cap {CAP}, spread {SPREAD}")?;
    walk(rt, &straight, CAP, SPREAD)?;
    weigh_once(rt, &straight, 20_400, 21_400, 3_600_000)?;
    Ok(())
}
