// Reads a bid file on standard input and prints its listing.
#![tactic(auto)]

mod failure;

use bidfile::MOST_BYTES;
use failure::Failure;
use rehearsal::{Storage, rehearse};
use std::io::{BufWriter, Read, Write};
use std::process::ExitCode;

// One byte more than a bid file may have, so that a longer one is seen to be too long and is read no further.
const MOST_READ: u64 = MOST_BYTES as u64 + 1;

fn read_file(rt: &HostRuntime) -> Result<Vec<u8>, Failure> {
    let mut file = Vec::new(rt.alloc());
    rt.stdin()
        .take(MOST_READ)
        .read_to_end(&mut file)
        .map_err(|_| Failure::Reading)?;
    Ok(file)
}

fn print_listing(rt: &HostRuntime, file: &[u8], storage: Storage) -> Result<(), Failure> {
    let mut out = BufWriter::new(rt.alloc(), rt.stdout()).map_err(|_| Failure::Memory)?;
    for line in rehearse(file, storage) {
        writeln!(out, "{line}").map_err(|_| Failure::Writing)?;
    }
    out.flush().map_err(|_| Failure::Writing)
}

fn run(rt: &HostRuntime) -> Result<(), Failure> {
    let storage = Storage::new(rt.alloc()).map_err(|_| Failure::Memory)?;
    let file = read_file(rt)?;
    print_listing(rt, file.as_slice(), storage)
}

fn main(rt: HostRuntime) -> ExitCode {
    // Not `?` out of main: that would print `Error: ` before the failure's own text.
    match run(&rt) {
        Ok(()) => ExitCode::SUCCESS,
        Err(failure) => {
            let _ = rt.eprintln(failure);
            ExitCode::FAILURE
        }
    }
}
