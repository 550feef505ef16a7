// Turns the text of a bid file on standard input into its words, or with --text the words into text.
#![tactic(auto)]

mod failure;
#[cfg(test)]
mod tests;

use bidfile::MOST_BYTES;
use bidtext::{text_words, words_text};
use failure::Failure;
use std::env;
use std::io::{Read, Write};
use std::process::ExitCode;

const MOST_TEXT: usize = 4_194_304;

// One byte more than may be read, so that what is too long is seen to be so and is read no further.
const READ_TEXT: u64 = MOST_TEXT as u64 + 1;

const READ_WORDS: u64 = MOST_BYTES as u64 + 1;

fn read_input(rt: &HostRuntime, most: u64) -> Result<Vec<u8>, Failure> {
    let mut input = Vec::new(rt.alloc());
    rt.stdin()
        .take(most)
        .read_to_end(&mut input)
        .map_err(|_| Failure::Reading)?;
    Ok(input)
}

fn write_output(rt: &HostRuntime, bytes: &[u8]) -> Result<(), Failure> {
    let mut out = rt.stdout();
    out.write_all(bytes).map_err(|_| Failure::Writing)?;
    out.flush().map_err(|_| Failure::Writing)
}

fn write_words(rt: &HostRuntime) -> Result<(), Failure> {
    let text = read_input(rt, READ_TEXT)?;
    if text.len() > MOST_TEXT {
        return Err(Failure::LongText);
    }
    let words = text_words(rt.alloc(), text.as_slice())?;
    write_output(rt, words.as_slice())
}

fn write_text(rt: &HostRuntime) -> Result<(), Failure> {
    let file = read_input(rt, READ_WORDS)?;
    let listed = words_text(rt.alloc(), file.as_slice()).map_err(|_| Failure::Memory)?;
    write_output(rt, listed.text.as_bytes())?;
    match listed.fault {
        None => Ok(()),
        Some(fault) => Err(Failure::File(fault)),
    }
}

fn run(rt: &HostRuntime) -> Result<(), Failure> {
    let mut arguments = env::args(rt).map_err(|_| Failure::Usage)?.skip(1);
    match arguments.next() {
        None => write_words(rt),
        Some(argument) if argument.as_str() == "--text" && arguments.next().is_none() => write_text(
            rt,
        ),
        Some(_) => Err(Failure::Usage),
    }
}

fn main(rt: HostRuntime) -> ExitCode {
    // Not `?` out of main: that would print `Error: ` before the failure's own text.
    match run(&rt) {
        Ok(()) => ExitCode::SUCCESS,
        Err(failure) => {
            let _ = rt.eprintln(failure);
            ExitCode::FAILURE
        }
    }
}
