ghost use Rattle.std.specs.Prelude.{◌≡◌, true};
ghost use Rattle.bidfile.specs.Words.{words};
ghost use Rattle.rehearsal.specs.Soundness.{sound};

use crate::progress::Progress;
use crate::waiting::Waiting;
use bidfile::Reader;

mod lines;

pub use lines::rehearse;

// The run of a bid file, which gives out the lines of its listing one by one.
#[derive(Drop)]
pub struct Run<'a> {
    reader: Reader<'a>,
    progress: Progress,
    waiting: Waiting,
    ghost kept: { sound progress reader.at (words reader.file.now) ≡ true },
}
