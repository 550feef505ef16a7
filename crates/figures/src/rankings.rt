// A handful of exits ranked under both tie orders, and the roll of their units.

ghost use Rattle.std.specs.Prelude.{◌≡◌, List, Decides, OnOk};
ghost use Rattle.std.specs.Iterator.{IsFinite};
ghost use Rattle.figures.specs.Counts.{CountedFor};
ghost use Rattle.figures.specs.Rankings.{all_exits, roll_row, NumberedAs};
ghost use Rattle.ranking.specs.Ahead.{price_ahead};
ghost use Rattle.ranking.specs.Rankings.{Ranked, RanksExits, ranking_of};

use crate::sheet::Sheet;
use ranking::{ByName, ByRule, Exit, ExitRanking, Numbered, Order, RollOrder, RollRow, rank};
use std::io;

const ASH: Exit = Exit {
    unit: 0,
    price: 3600,
    capacity: 1000,
    years: 1,
    random: 7,
    name: *b"ASH-1   ",
};

const BAY: Exit = Exit {
    unit: 1,
    price: 3600,
    capacity: 1400,
    years: 15,
    random: 2,
    name: *b"BAY-2   ",
};

const ELM: Exit = Exit {
    unit: 2,
    price: 3600,
    capacity: 1400,
    years: 10,
    random: 9,
    name: *b"ELM-3   ",
};

const YEW: Exit = Exit {
    unit: 3,
    price: 3600,
    capacity: 1400,
    years: 10,
    random: 4,
    name: *b"YEW-4   ",
};

const OAK: Exit = Exit {
    unit: 4,
    price: 3600,
    capacity: 1400,
    years: 10,
    random: 4,
    name: *b"OAK-5   ",
};

const FIR: Exit = Exit {
    unit: 5,
    price: 3500,
    capacity: 1000,
    years: 15,
    random: 9,
    name: *b"FIR-6   ",
};

const ALL: [Exit; 6] = [ASH, BAY, ELM, YEW, OAK, FIR];

// Two exits that tie, and on what.
const TIES: [(&str, [Exit; 2]); 4] = [
    ("tied on price", [ASH, BAY]),
    ("tied on price and capacity", [BAY, ELM]),
    ("tied on price, capacity and years", [ELM, YEW]),
    ("tied on all four", [OAK, YEW]),
];

// All the exits, ranked under a tie order. Nothing calls it: by `only`, what `rank` makes of them is what `all_rule` and
// `all_name` of WorkedRankings name.
pub fn ranked<O: Order<Item = Exit>>(order: &ExitRanking<O>) -> [Exit; 6]
    ensures worked_out { result ≡ ranking_of (price_ahead (O.Order.ahead order.now.ties)) all_exits }
    ensures only { (due : List Exit) → RanksExits (O.Order.ahead order.now.ties) all_exits due → result ≡ due }
{
    let mut exits = ALL;
    rank(order, &mut exits);
    exits
}

// Whether the items have these unit numbers, in this order.
fn numbered_as<T: Numbered>(items: &[T], due: &[usize]) -> bool
    ensures { Decides result (NumberedAs T.Numbered.unit items.now due.now) }
{
    items.len() == due.len()
        && items
            .iter()
            .zip(due)
            .all(|(item, number)| item.unit() == *number)
}

// Ranks the items, and says whether their unit numbers then come as due.
pub fn ranks_as<O: Order>(order: &O, items: &mut [O::Item], due: &[usize]) -> bool
    ensures ranked { Ranked O.Item.Numbered.unit (O.Order.ahead order.now) items.old items.new }
    ensures agrees { Decides result (NumberedAs O.Item.Numbered.unit items.new due.now) }
{
    rank(order, items);
    numbered_as(items, due)
}

fn print_numbers<I: Iterator<Item = usize> + Drop>(rt: &HostRuntime, numbers: I) -> io::Result<()>
    requires can { I.can_next numbers }
    requires ends { IsFinite (I.remaining numbers) }
{
    for number in numbers {
        print!(rt; " {number}")?;
    }
    Ok(())
}

// Ranks the items, shows their unit numbers beside those that are due, and counts the figure.
fn show_ranking<O: Order>(
    sheet: &mut Sheet,
    what: &str,
    order: &O,
    items: &mut [O::Item],
    due: &[usize],
) -> io::Result<()>
    ensures ranked { Ranked O.Item.Numbered.unit (O.Order.ahead order.now) items.old items.new }
    ensures counted { OnOk result (CountedFor (NumberedAs O.Item.Numbered.unit items.new due.now) sheet.old.tally sheet.new.tally) }
{
    let agrees = ranks_as(order, items, due);
    let rt = sheet.rt;
    print!(rt; "{what}:")?;
    print_numbers(rt, items.iter().map(|item| item.unit()))?;
    print!(rt; ", due")?;
    print_numbers(rt, due.iter().copied())?;
    sheet.count(agrees, "")
}

// Not in the loop of `show_exits`: the length of an array that a zip yields is not known there.
fn show_tie<O: Order<Item = Exit>>(
    sheet: &mut Sheet,
    on: &str,
    order: &ExitRanking<O>,
    exits: &[Exit; 2],
    due: &[usize; 2],
) -> io::Result<()> {
    let mut exits = *exits;
    show_ranking(sheet, on, order, &mut exits, due)
}

// Shows the exits by price, under a tie order.
fn show_exits<O: Order<Item = Exit>>(
    sheet: &mut Sheet,
    order: &ExitRanking<O>,
    due_of_ties: &[[usize; 2]; 4],
    due_of_all: &[usize; 6],
) -> io::Result<()> {
    for ((on, exits), due) in TIES.iter().zip(due_of_ties) {
        show_tie(sheet, on, order, exits, due)?;
    }
    show_ranking(sheet, "all exits", order, &mut ALL, due_of_all)
}

fn show_by_rule(sheet: &mut Sheet) -> io::Result<()> {
    sheet
        .rt
        .println("Exits by price, ties by rule; unit numbers")?;
    let order = ExitRanking { ties: ByRule };
    let ties = [[1, 0], [2, 1], [3, 2], [3, 4]];
    show_exits(sheet, &order, &ties, &[5, 3, 4, 2, 1, 0])
}

fn show_by_name(sheet: &mut Sheet) -> io::Result<()> {
    sheet
        .rt
        .println("Exits by price, ties by name; unit numbers")?;
    let order = ExitRanking {
        ties: ByName::default(),
    };
    let ties = [[0, 1], [1, 2], [2, 3], [4, 3]];
    show_exits(sheet, &order, &ties, &[5, 0, 1, 2, 4, 3])
}

// The row of an exit's unit in the roll.
fn row(exit: &Exit) -> RollRow
    ensures { result ≡ roll_row exit.now }
{
    RollRow {
        name: exit.name,
        capacity: exit.capacity,
        years: exit.years,
        unit: exit.unit,
    }
}

// Shows the rows of the same units in the order of the roll.
fn show_roll(sheet: &mut Sheet) -> io::Result<()> {
    sheet.rt.println("The roll; unit numbers")?;
    let mut rows = [&FIR, &YEW, &OAK, &ELM, &BAY, &ASH].map(row);
    let due = [0, 1, 2, 5, 4, 3];
    show_ranking(sheet, "all units", &RollOrder::default(), &mut rows, &due)
}

// Shows the worked rankings, each beside what it should be.
pub fn show(sheet: &mut Sheet) -> io::Result<()> {
    show_by_rule(sheet)?;
    show_by_name(sheet)?;
    show_roll(sheet)
}
