// The worked figures of the two curves.

ghost use Rattle.std.specs.Prelude.{◌≡◌, [], ◌∷◌, pos, IfOk, OnOk};
ghost use Rattle.curve.specs.Questions.{refused, question};
ghost use Rattle.curve.specs.Weighing.{Weighed, sign_number};
ghost use Rattle.figures.specs.Counts.{CountedFor};
ghost use Rattle.figures.specs.Curves.{worked_corners, FoundSo};

use crate::outcome::Outcome;
use crate::sheet::Sheet;
use crate::words::Found;
use anyhow::Context;
use curve::{Corner, Cornered, Curve, Form, Lines, Sign, Stepped, Steps, Straight};
use std::alloc::Global;
use std::{array, io};

pub const K: [Corner; 3] = [
    Corner {
        quantity: 10_000,
        price: 7_000,
    },
    Corner {
        quantity: 20_000,
        price: 4_000,
    },
    Corner {
        quantity: 30_000,
        price: 0,
    },
];

// The curve of a form with the corners of K.
pub fn made<S: Form>(heap: Global) -> anyhow::Result<Cornered<S>>
    ensures { IfOk result (λ c. c.corners.items ≡ worked_corners) }
{
    Cornered::make(K.to_vec(heap)?)
        .ok()
        .context("the corners make no curve")
}

fn show_demand<C: Curve>(sheet: &mut Sheet, curve: &C, price: u32, due: u32) -> io::Result<()>
    ensures { OnOk result (CountedFor ((C.meaning curve.now).demand price ≡ due) sheet.old.tally sheet.new.tally) }
{
    sheet.show(format_args!("D({price}) = "), curve.demand(price), due)
}

fn show_weighing<C: Curve>(
    sheet: &mut Sheet,
    curve: &C,
    from: u32,
    to: u32,
    due: Sign,
) -> io::Result<()>
    ensures { OnOk result (CountedFor (FoundSo (C.meaning curve.now) from to due) sheet.old.tally sheet.new.tally) }
{
    let found = Found(curve.weigh(from, to, 3_600_000).ok());
    let due = Found(Some(due));
    sheet.count(
        found == due,
        format_args!("{from} to {to} is {found} 3600000, due {due}"),
    )
}

fn show_demands(sheet: &mut Sheet) -> anyhow::Result<()> {
    let straight: Straight = made(sheet.rt.alloc())?;
    sheet.rt.println("Demand on the straight curve K")?;
    for (price, due) in [(7_001, 0), (7_000, 10_000), (6_000, 13_334), (1, 29_998)] {
        show_demand(sheet, &straight, price, due)?;
    }
    let stepped: Stepped = made(sheet.rt.alloc())?;
    sheet
        .rt
        .println("Demand on the stepped curve with K's corners")?;
    for (price, due) in [(4_001, 10_000), (1, 20_000)] {
        show_demand(sheet, &stepped, price, due)?;
    }
    Ok(())
}

fn show_weighings(sheet: &mut Sheet) -> anyhow::Result<()> {
    let straight: Straight = made(sheet.rt.alloc())?;
    sheet.rt.println("Areas of K against 3600000")?;
    show_weighing(sheet, &straight, 20_400, 21_400, Sign::Above)?;
    show_weighing(sheet, &straight, 20_500, 21_500, Sign::Level)?;
    show_weighing(sheet, &straight, 20_600, 21_600, Sign::Below)?;
    for (what, from, to, due) in [
        ("from 0 to the ceiling", 0, 200_000_000, None),
        ("from 0 to past the ceiling", 0, 200_000_001, Some(5)),
        ("from a place to itself", 20_000, 20_000, None),
        ("from a place to one before it", 20_001, 20_000, Some(5)),
    ] {
        let answer = Outcome::of(straight.weigh(from, to, 0));
        sheet.show(format_args!("{what}: "), answer, Outcome(due))?;
    }
    Ok(())
}

// Two corners at the edge of a question, with the number of the question that they fail.
#[derive(Clone, Copy)]
struct Edge {
    what: &'static str,
    corners: [Corner; 2],
    due: Option<u32>,
}

fn corners_at(what: &'static str, first: Corner, next: Corner, due: Option<u32>) -> Edge
    ensures { result.corners ≡ first ∷ (next ∷ []) }
{
    Edge {
        what,
        corners: [first, next],
        due,
    }
}

fn at(quantity: u32, price: u32) -> Corner
    ensures { result ≡ record { quantity = quantity; price = price } }
{
    Corner { quantity, price }
}

// Corners of one price, 1,000 kW apart.
fn row_of_seventeen() -> [Corner; 17] {
    array::from_fn(|i| at((i as u32 + 1) * 1_000, 100))
}

fn show_counts(sheet: &mut Sheet) -> io::Result<()> {
    let row = row_of_seventeen();
    sheet.rt.println("How many corners")?;
    for (what, corners, due) in [
        ("no corner", &row[..0], Some(1)),
        ("one corner", &row[..1], None),
        ("16 corners", &row[..16], None),
        ("17 corners", &row[..], Some(1)),
    ] {
        let answer = Outcome::of(Straight::check(corners));
        sheet.show(format_args!("{what}: "), answer, Outcome(due))?;
    }
    Ok(())
}

// Shows what the questions of a curve of a form answer at these edges.
fn show_edges<S: Form>(sheet: &mut Sheet, edges: &[Edge]) -> io::Result<()> {
    for edge in edges {
        let what = edge.what;
        let answer = Outcome::of(Cornered::<S>::check(&edge.corners));
        sheet.show(format_args!("{what}: "), answer, Outcome(edge.due))?;
    }
    Ok(())
}

fn show_straight_edges(sheet: &mut Sheet) -> io::Result<()> {
    sheet.rt.println("Corners of a straight curve")?;
    let edges = [
        corners_at("price 10000", at(1_000, 10_000), at(2_000, 0), None),
        corners_at("price 10001", at(1_000, 10_001), at(2_000, 0), Some(2)),
        corners_at("quantity 1", at(1, 100), at(2_000, 0), None),
        corners_at("quantity 0", at(0, 100), at(2_000, 0), Some(2)),
        corners_at("equal prices", at(1_000, 100), at(2_000, 100), None),
        corners_at("rising prices", at(1_000, 100), at(2_000, 101), Some(3)),
        corners_at("rising quantities", at(1_000, 100), at(1_001, 0), None),
        corners_at("equal quantities", at(1_000, 100), at(1_000, 0), Some(3)),
        corners_at("10000000 kW apart", at(1_000, 100), at(10_001_000, 0), None),
        corners_at(
            "10000001 kW apart",
            at(1_000, 100),
            at(10_001_001, 0),
            Some(4),
        ),
    ];
    show_edges::<Lines>(sheet, &edges)
}

fn show_stepped_edges(sheet: &mut Sheet) -> io::Result<()> {
    sheet.rt.println("Corners of a stepped curve")?;
    let edges = [
        corners_at("10000001 kW apart", at(1_000, 100), at(10_001_001, 0), None),
        corners_at(
            "quantity at the ceiling",
            at(1_000, 100),
            at(200_000_000, 0),
            None,
        ),
        corners_at(
            "quantity past the ceiling",
            at(1_000, 100),
            at(200_000_001, 0),
            Some(2),
        ),
    ];
    show_edges::<Steps>(sheet, &edges)
}

pub fn show(sheet: &mut Sheet) -> anyhow::Result<()> {
    show_demands(sheet)?;
    show_weighings(sheet)?;
    show_counts(sheet)?;
    show_straight_edges(sheet)?;
    show_stepped_edges(sheet)?;
    Ok(())
}
