// A run, asked for its next line.

ghost use Rattle.std.specs.Prelude.{◌≡◌, ◌<◌};
ghost use Rattle.std.specs.Iterator.{YieldsFirst, item_count};
ghost use Rattle.bidfile.specs.Found.{found};
ghost use Rattle.bidfile.specs.Words.{words};
ghost use Rattle.rehearsal.specs.Left.{lines_left, lines_ahead, advanced_as, Running, Further, Silent, steps_left};
ghost use Rattle.rehearsal.specs.Listing.{listing};
ghost use Rattle.rehearsal.specs.Market.{Market};

use crate::progress::Progress;
use crate::run::Run;
use crate::storage::Storage;
use crate::waiting::Waiting;
use bidfile::Reader;
use listing::{Fault, Line};
use std::mem;

// Reads on by a record, or to the end of the file.
fn advance<'a>(
    reader: &mut Reader<'a>,
    progress: Progress,
) -> Result<(Progress, Option<Line>), Fault>
    requires { Running progress reader.old.at (words reader.old.file.now) }
    ensures lines { advanced_as result (found reader.old.file.now reader.new.at) ≡ lines_ahead progress (found reader.old.file.now reader.old.at) }
    ensures file { reader.new.file ≡ reader.old.file }
    ensures bytes { reader.new.file.now ≡ reader.old.file.now }
    ensures place { Further reader.old.at reader.new.at (words reader.old.file.now) result }
{
    match reader.next(progress.due())? {
        Some(placed) => Ok(progress.take(placed)?),
        None => {
            let line = progress.finish()?;
            Ok((Progress::Over, line))
        }
    }
}

impl<'a> Run<'a> {
    // One record further; its lines wait then.
    fn step(&mut self)
        requires { Silent self.old }
        ensures lines { lines_left self.new ≡ lines_left self.old }
        ensures falls { steps_left self.new < steps_left self.old }
    {
        let progress = mem::replace(&mut self.progress, Progress::Over);
        match advance(&mut self.reader, progress) {
            Ok((progress, line)) => {
                self.waiting.put_all(line, &progress);
                self.progress = progress;
            }
            Err(fault) => self.waiting = Waiting::fault(fault),
        }
    }

    // The next line of the listing, or none where all were given out.
    pub fn next_line(&mut self) -> Option<Line>
        ensures { YieldsFirst lines_left self.old result self.new }
    {
        loop {
            if let Some(line) = self.waiting.next() {
                return Some(line);
            }
            if self.progress.is_over() {
                return None;
            }
            self.step();
        }
    }
}

impl<'a> Iterator for Run<'a> {
    type Item = Line;

    ghost next_gives = { YieldsFirst lines_left };

    ghost remaining = { item_count lines_left };

    fn next(&mut self) -> Option<Line> {
        self.next_line()
    }
}

// The run of a bid file, at its start. The first question is of the file's length.
pub fn rehearse<'a>(file: &'a [u8], storage: Storage) -> Run<'a>
    ensures listing { lines_left result ≡ listing file.now }
    ensures market { Market file.now (lines_left result) }
{
    let reader = Reader::new(file);
    if let Err(fault) = reader.check() {
        let line = Line::from(Fault::from(fault));
        return Run {
            reader,
            progress: Progress::Over,
            waiting: Waiting::new(Some(line)),
        };
    }
    Run {
        reader,
        progress: Progress::Fresh(storage),
        waiting: Waiting::new(None),
    }
}
