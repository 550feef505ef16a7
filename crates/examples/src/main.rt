// Runs the examples that its arguments name, and compares each listing with the one that is stored beside its file.
#![tactic(auto)]

use rehearsal::{Storage, rehearse};
use std::alloc::Global;
use std::{env, fs};

// The listing of a bid file, made by the run that `clear` makes.
fn listing(heap: Global, file: &[u8]) -> anyhow::Result<String> {
    let mut text = String::new(heap);
    for line in rehearse(file, Storage::new(heap)?) {
        let shown = format!(in heap; "{line}\n")?;
        text.push_str(shown.as_str())?;
    }
    Ok(text)
}

fn is_as_listed(rt: &HostRuntime, name: &str) -> anyhow::Result<bool> {
    let heap = rt.alloc();
    let file = fs::read(rt, format!(in heap; "{name}.bid")?)?;
    let stored = fs::read(rt, format!(in heap; "{name}.listing")?)?;
    let text = listing(heap, file.as_slice())?;
    Ok(text.as_bytes() == stored.as_slice())
}

fn run(rt: &HostRuntime) -> anyhow::Result<()> {
    // Counted in the loop that prints: a chain would need a list of answers beside it.
    let mut shown = 0u32;
    let mut agree = 0u32;
    for name in env::args(rt)?.skip(1) {
        let name = name.as_str();
        shown = shown.saturating_add(1);
        if is_as_listed(rt, name)? {
            agree = agree.saturating_add(1);
            println!(rt; "{name}: as listed")?;
        } else {
            println!(rt; "{name}: NOT AS LISTED")?;
        }
    }
    println!(rt; "{agree} of {shown} examples are as listed")?;
    Ok(())
}

fn main(rt: HostRuntime) -> anyhow::Result<()> {
    run(&rt)
}
