use bidfile::FileFault;
use bidtext::{Expected, TextFault};
use thiserror::Error;

// Why the program gives up.
#[derive(Clone, Copy, PartialEq, Eq, Debug, Error)]
pub(crate) enum Failure {
    #[error("bid: give no argument to turn text into words, or --text to turn words into text")]
    Usage,
    #[error("bid: standard input cannot be read: give the file by < and its name")]
    Reading,
    #[error("bid: standard output cannot be written: see that there is room, and try again")]
    Writing,
    #[error("bid: there is no memory left: end other programs, and try again")]
    Memory,
    #[error("bid: the text is longer than 4 MiB: take comments and blanks out of it")]
    LongText,
    #[error("line {0}: expected {1}")]
    Line(usize, Expected),
    #[error("FAULT FILE {} WORD {}", u32::from(*.0), .0.place)]
    File(FileFault),
}

impl From<TextFault> for Failure {
    fn from(fault: TextFault) -> Failure {
        match fault {
            TextFault::Line(line, expected) => Failure::Line(line, expected),
            TextFault::Memory => Failure::Memory,
        }
    }
}
