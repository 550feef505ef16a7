// The lines that wait to be given out, in their order.

ghost use Rattle.std.specs.Prelude.{◌≡◌, [], ◌∷◌, ◌++◌};
ghost use Rattle.std.specs.Iterator.{YieldsFirst, item_count};
ghost use Rattle.std.specs.Option.{option_to_list};
ghost use Rattle.listing.specs.Faults.{fault_line};
ghost use Rattle.rehearsal.specs.Saying.{settled_lines};
ghost use Rattle.rehearsal.specs.Sessions.{session_state};
ghost use Rattle.rehearsal.specs.Takes.{progress_lines};

use crate::progress::Progress;
use crate::stages::Session;
use arrayvec::{ArrayVec, IntoIter};
use book::MOST_UNITS;
use listing::{Fault, Line};
use ranking::RollRow;
use std::marker::Model;

// The lines of one record or of the end of the file, seen as their list: at most two, and then those of the rows of the roll.
#[derive(Drop)]
pub(crate) struct Waiting {
    first: Option<Line>,
    second: Option<Line>,
    awards: IntoIter<RollRow, MOST_UNITS>,
}

impl Model for Waiting {
    ghost use Rattle.std.specs.Prelude.{List, ◌++◌, map};
    ghost use Rattle.std.specs.Option.{option_to_list};
    ghost use Rattle.listing.specs.declared.line.Line.{Line as PrintedLine};
    ghost use Rattle.rehearsal.specs.Listing.{award_line};

    ghost Value = { List PrintedLine };

    ghost view = { λ w. option_to_list w.first ++ (option_to_list w.second ++ map award_line w.awards) };
}

impl Waiting {
    pub(crate) fn new(first: Option<Line>) -> Waiting
        ensures { result ≡ option_to_list first }
    {
        Waiting {
            first,
            second: None,
            awards: ArrayVec::new().into_iter(),
        }
    }

    // The line of a fault.
    pub(crate) fn fault(fault: Fault) -> Waiting
        ensures { result ≡ fault_line fault ∷ [] }
    {
        Waiting::new(Some(Line::from(fault)))
    }

    // Lets the lines of a record that an auction heard wait, where none did: its first, and those of a settlement, if there is
    // one.
    fn put_heard(&mut self, line: Option<Line>, session: &Session)
        requires { self.old ≡ [] }
        ensures { self.new ≡ option_to_list line ++ settled_lines (session_state session.now) }
    {
        self.first = line;
        match session {
            Session::Enrolling(_) | Session::Open(_) | Session::Shut(_) => {}
            Session::Settled(settled) => {
                self.second = Some(settled.cleared_line());
                self.awards = settled.awards();
            }
        }
    }

    // Lets the lines of a record wait, where none did. Not made new, as those of a fault: a run took twice as long, since the
    // room for the rows was copied at each record.
    pub(crate) fn put_all(&mut self, line: Option<Line>, progress: &Progress)
        requires { self.old ≡ [] }
        ensures { self.new ≡ option_to_list line ++ progress_lines progress.now }
    {
        match progress {
            Progress::Going(session) => self.put_heard(line, session),
            Progress::Fresh(_) | Progress::Gathering(_) | Progress::Over => self.first = line,
        }
    }
}

impl Iterator for Waiting {
    type Item = Line;

    ghost next_gives = { YieldsFirst (λ lines. lines) };

    ghost remaining = { item_count (λ lines. lines) };

    fn next(&mut self) -> Option<Line> {
        if let Some(line) = self.first.take() {
            return Some(line);
        }
        if let Some(line) = self.second.take() {
            return Some(line);
        }
        let row = self.awards.next()?;
        Some(Line::from(row))
    }
}
