// The worked auction of five units, conducted call by call.

use crate::clearings::Cleared;
use crate::conducted::{Award, Conducted, End, Ending, UnitNumber};
use crate::curves::made;
use crate::outcome::{ACCEPTED, Outcome};
use crate::sheet::Sheet;
use crate::units::{BECK, COMBE, DALE, EDGE, HOLT};
use anyhow::{Context, bail};
use auction::{Auction, Closed, EnrolmentClock, Figures, OpenClock, Prices, Setting, SettledClock};
use book::Room;
use clearing::{Ground, Settlement};
use curve::Straight;
use ranking::ByRule;
use std::alloc::Global;
use std::io;

type Worked<'s, 'r> = Conducted<'s, 'r, Straight, ByRule>;

// Opens the auction over K, with ties by rule.
fn opened(heap: Global) -> anyhow::Result<(Auction<Straight, ByRule>, EnrolmentClock)> {
    let prices = Prices {
        cap: 7_000,
        spread: 3_000,
        threshold: 2_500,
    };
    let setting = Setting {
        curve: made(heap)?,
        order: ByRule,
        room: Room::new(heap)?,
    };
    Auction::open(1, prices, setting)
        .ok()
        .context("the auction is not opened")
}

// Enrols the five units, and opens round 1.
fn enrol_all(worked: &mut Worked, clock: EnrolmentClock) -> anyhow::Result<OpenClock> {
    let units = [
        ("HOLT-1", HOLT),
        ("BECK-2", BECK),
        ("COMBE-3", COMBE),
        ("DALE-4", DALE),
        ("EDGE-5", EDGE),
    ];
    for (due, (name, application)) in units.iter().enumerate() {
        worked.enrol(&clock, name, application, UnitNumber(due))?;
    }
    let open = worked
        .auction
        .begin(clock)
        .ok()
        .context("round 1 is not begun")?;
    worked.sheet.rt.println("begin: accepted")?;
    Ok(open)
}

// Conducts round 1, which does not clear, and opens round 2.
fn round_one(worked: &mut Worked, clock: OpenClock) -> anyhow::Result<OpenClock> {
    worked.exit(&clock, 4, 5_000, ACCEPTED)?;
    let figures = Figures {
        capacity_in: 21_400,
        demand: 20_000,
    };
    let due = Ending {
        figures,
        end: End::Shut,
    };
    let Closed::Shut(shut) = worked.close(clock, due)? else {
        bail!("round 1 clears");
    };
    let open = worked
        .auction
        .next(shut)
        .ok()
        .context("round 2 is not opened")?;
    worked.sheet.rt.println("next: accepted")?;
    Ok(open)
}

// Exits at the edges of round 2, each undone where it was taken.
fn show_edges(worked: &mut Worked, clock: &OpenClock) -> io::Result<()> {
    worked.exit(clock, 0, 4_000, ACCEPTED)?;
    worked.step_back(clock, ACCEPTED)?;
    worked.exit(clock, 0, 1_000, Outcome(Some(17)))?;
    worked.exit(clock, 1, 2_500, ACCEPTED)?;
    worked.step_back(clock, ACCEPTED)?;
    worked.exit(clock, 1, 2_501, Outcome(Some(18)))
}

// Conducts round 2, which clears.
fn round_two(worked: &mut Worked, clock: OpenClock) -> anyhow::Result<SettledClock> {
    worked.exit(&clock, 1, 3_600, Outcome(Some(18)))?;
    worked.years(&clock, 2, 10, ACCEPTED)?;
    worked.exit(&clock, 0, 3_800, ACCEPTED)?;
    worked.step_back(&clock, ACCEPTED)?;
    show_edges(worked, &clock)?;
    worked.exit(&clock, 3, 3_600, ACCEPTED)?;
    worked.exit(&clock, 2, 3_600, ACCEPTED)?;
    let figures = Figures {
        capacity_in: 19_000,
        demand: 27_500,
    };
    let due = Ending {
        figures,
        end: End::Settled,
    };
    let Closed::Settled(settled) = worked.close(clock, due)? else {
        bail!("round 2 does not clear");
    };
    Ok(settled)
}

fn show_results(worked: &mut Worked, clock: &SettledClock) -> anyhow::Result<()> {
    let settlement = worked
        .auction
        .settlement(clock)
        .ok()
        .context("the settlement is not read")?;
    let due = Settlement {
        price: 3_600,
        ground: Ground::NextTaken,
        stop: 2,
    };
    worked.sheet.show(
        "settlement: ",
        Cleared(Some(settlement)),
        Cleared(Some(due)),
    )?;
    let awards = [(9_000, 1), (10_000, 1), (1_400, 10), (1_000, 1), (0, 0)];
    for (unit, (capacity, years)) in awards.iter().copied().enumerate() {
        worked.award(clock, unit, Award { capacity, years })?;
    }
    Ok(())
}

pub fn show(sheet: &mut Sheet) -> anyhow::Result<()> {
    sheet.rt.println("The worked auction")?;
    let (auction, enrolling) = opened(sheet.rt.alloc())?;
    let mut worked = Conducted { sheet, auction };
    worked.sheet.rt.println("open with cap 7000, spread 3000, threshold 2500: accepted")?;
    let first = enrol_all(&mut worked, enrolling)?;
    let second = round_one(&mut worked, first)?;
    let settled = round_two(&mut worked, second)?;
    show_results(&mut worked, &settled)
}
