// Worked clearings over curve K.

ghost use Rattle.std.specs.Prelude.{◌≡◌, Some, OnOk};
ghost use Rattle.std.proofs.Common.{rules};
ghost use Rattle.clearing.specs.Finding.{outcome_of};
ghost use Rattle.clearing.specs.Premise.{Clearable};
ghost use Rattle.figures.specs.Counts.{CountedFor};

use crate::curves::made;
use crate::sheet::{Figure, Sheet};
use crate::units::{COMBE, DALE, EDGE};
use book::Application;
use clearing::{Ground, Round, Settlement, clear};
use curve::{Curve, Straight};
use ranking::Exit;
use std::{fmt, io};

// What a round comes to: how it cleared, if it did.
#[derive(Clone, Copy, PartialEq)]
pub struct Cleared(pub Option<Settlement>);

impl fmt::Display for Cleared {
    fn fmt<W: fmt::Write>(&self, f: &mut fmt::Formatter<W>) -> fmt::Result {
        let Some(settlement) = self.0 else {
            return f.write_str("does not clear");
        };
        let price = settlement.price;
        let ground = u32::from(settlement.ground);
        let stop = settlement.stop;
        write!(f, "price {price}, ground {ground}, stopping place {stop}")
    }
}

impl Figure for Cleared {
    ghost same = { Prim.search rules };
}

// The exit of a unit that applied so.
fn exit_of(unit: usize, application: &Application, price: u32) -> Exit
    ensures { result ≡ record { unit = unit; price = price; capacity = application.now.capacity; years = application.now.years; random = application.now.random; name = application.now.name } }
{
    Exit {
        unit,
        price,
        capacity: application.capacity,
        years: application.years,
        random: application.random,
        name: application.name,
    }
}

// Clears a round and shows the outcome beside what it should be.
fn show_clearing<C: Curve>(
    sheet: &mut Sheet,
    curve: &C,
    floor: u32,
    capacity_in: u32,
    exits: &[Exit],
    due: Option<Settlement>,
) -> io::Result<()>
    requires { Clearable floor capacity_in exits.now }
    ensures { OnOk result (CountedFor (outcome_of (C.meaning curve.now) floor capacity_in exits.now ≡ due) sheet.old.tally sheet.new.tally) }
{
    // made here, so that each call says its three values in one line
    let round = Round {
        floor,
        capacity_in,
        exits,
    };
    let outcome = clear(curve, round);
    let rt = sheet.rt;
    print!(rt; "floor {floor}, {capacity_in} in")?;
    for exit in exits {
        let capacity = exit.capacity;
        let price = exit.price;
        print!(rt; ", {capacity} left at {price}")?;
    }
    sheet.show(": ", Cleared(outcome), Cleared(due))
}

fn cleared_so(price: u32, ground: Ground, stop: usize) -> Option<Settlement>
    ensures { result ≡ Some (record { price = price; ground = ground; stop = stop }) }
{
    Some(Settlement {
        price,
        ground,
        stop,
    })
}

pub fn show(sheet: &mut Sheet) -> anyhow::Result<()> {
    let k: Straight = made(sheet.rt.alloc())?;
    let edge = exit_of(4, &EDGE, 5_000);
    let dale = exit_of(3, &DALE, 3_600);
    let combe = Exit {
        years: 10,
        ..exit_of(2, &COMBE, 3_600)
    };
    let larger = Exit {
        capacity: 1_500,
        ..combe
    };
    sheet.rt.println("Clearings over K")?;
    show_clearing(sheet, &k, 4_000, 21_400, &[edge], None)?;
    let due = cleared_so(4_000, Ground::FloorExact, 0);
    show_clearing(sheet, &k, 4_000, 20_000, &[], due)?;
    let due = cleared_so(4_000, Ground::AllFit, 0);
    show_clearing(sheet, &k, 4_000, 0, &[], due)?;
    let due = cleared_so(3_600, Ground::ExitExact, 1);
    show_clearing(sheet, &k, 1_000, 20_000, &[dale], due)?;
    let due = cleared_so(3_600, Ground::NextTaken, 2);
    show_clearing(sheet, &k, 1_000, 19_000, &[combe, dale], due)?;
    let due = cleared_so(3_600, Ground::NextLeft, 1);
    show_clearing(sheet, &k, 1_000, 19_000, &[larger, dale], due)?;
    Ok(())
}
