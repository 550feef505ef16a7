// Walks an auction clock down a demand curve, then shows the worked figures, each beside what it should be.
#![tactic(auto)]

mod auctions;
mod clearings;
mod conducted;
mod curves;
mod outcome;
mod rankings;
mod sheet;
mod tally;
mod theorem;
mod units;
mod walk;
mod words;

use sheet::Sheet;

fn run(rt: &HostRuntime) -> anyhow::Result<()> {
    walk::show(rt)?;
    let mut sheet = Sheet::new(rt);
    curves::show(&mut sheet)?;
    rankings::show(&mut sheet)?;
    clearings::show(&mut sheet)?;
    auctions::show(&mut sheet)?;
    let shown = sheet.tally.shown;
    let agree = sheet.tally.agree;
    println!(rt; "{agree} of {shown} figures agree")?;
    Ok(())
}

fn main(rt: HostRuntime) -> anyhow::Result<()> {
    run(&rt)
}
