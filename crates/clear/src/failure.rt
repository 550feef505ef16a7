use thiserror::Error;

// Why no whole listing was printed.
#[derive(Clone, Copy, Debug, Error)]
pub enum Failure {
    #[error("clear: there is no memory for a run (under 1 MiB is needed): free some and run it again")]
    Memory,
    #[error("clear: the bid file could not be read: give it on standard input, as in `clear < FILE`")]
    Reading,
    #[error("clear: the listing could not be written, and what was printed of it is not whole: see that standard output stays open and has space")]
    Writing,
}
