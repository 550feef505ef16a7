// What a run makes of a record that is in turn, and of the end of its file.

ghost use Rattle.std.specs.Prelude.{◌≡◌, ◌<◌, [], ◌∷◌, ◌++◌, length};
ghost use Rattle.bidfile.specs.Items.{item_of};
ghost use Rattle.rehearsal.specs.Events.{taken, ending, left, unless_settled};
ghost use Rattle.rehearsal.specs.Hearing.{begun_in};
ghost use Rattle.rehearsal.specs.Listing.{lines_from};
ghost use Rattle.rehearsal.specs.Progress.{due, gathering, is_over};
ghost use Rattle.rehearsal.specs.Sessions.{session_state, session_stage};
ghost use Rattle.rehearsal.specs.Takes.{progress_of, taken_as, ended_as, as_lines, Keepable, Takeable, Unshut};
ghost use Rattle.std.specs.Option.{option_to_list};

use crate::progress::Progress;
use crate::stages::Session;
use crate::storage::{Gathering, Storage};
use bidfile::{Due, Placed, Record, TermsRecord};
use curve::Corner;
use listing::{Line, Unopenable};

impl Storage {
    // The terms have come.
    fn gather(self, terms: TermsRecord) -> Gathering
        ensures terms { result.terms ≡ terms }
        ensures corners { result.corners.items ≡ [] }
    {
        let Storage { room, corners } = self;
        Gathering {
            terms,
            corners,
            room,
        }
    }
}

impl Gathering {
    // A corner has come.
    fn keep(mut self, said: Corner) -> Gathering
        requires { length self.corners.items < 8191 }
        ensures terms { result.terms ≡ self.terms }
        ensures corners { result.corners.items ≡ self.corners.items ++ said ∷ [] }
    {
        self.corners.push_reserved(said);
        self
    }

    // Keeps a corner; any other record opens the auction, which hears it.
    fn take(self, said: Placed) -> Result<(Progress, Option<Line>), Unopenable>
        requires { Keepable self.corners.items (item_of said.«record») }
        ensures lines { taken_as result ≡ as_lines (taken (gathering self.terms self.corners.items) said.entry.place (item_of said.entry.«record»)) }
        ensures stage { Unshut result }
    {
        if let Record::Corner(corner) = said.record {
            return Ok((Progress::Gathering(self.keep(corner)), None));
        }
        let held = self.open()?;
        let (session, line) = Session::Enrolling(held).hear(said);
        Ok((Progress::Going(session), line))
    }
}

impl Session {
    // The line of an auction that has not settled.
    fn unsettled_line(&self) -> Option<Line>
        ensures { option_to_list result ≡ lines_from (unless_settled (session_stage self.now)) }
    {
        match self {
            Session::Enrolling(_) | Session::Open(_) | Session::Shut(_) => Some(Line::Unsettled),
            Session::Settled(_) => None,
        }
    }

    // The auction at the end of its file: it begins, if it has not, and no round is closed.
    fn finish(self) -> (Session, Option<Line>)
        ensures auction { session_state result.0 ≡ begun_in (session_state self) (session_stage self) }
        ensures line { option_to_list result.1 ≡ lines_from (left (session_state self)) }
    {
        let session = self.begun();
        let line = session.unsettled_line();
        (session, line)
    }
}

impl Progress {
    // The records that are in turn.
    pub(crate) fn due(&self) -> Due
        ensures { result ≡ due (progress_of self.now) }
    {
        match self {
            Progress::Fresh(_) => Due::Terms,
            Progress::Gathering(_) => Due::Corners,
            Progress::Going(session) => session.due(),
            Progress::Over => Due::Nothing,
        }
    }

    pub(crate) fn is_over(&self) -> bool
        ensures { result ≡ is_over (progress_of self.now) }
    {
        matches!(self, Progress::Over)
    }

    // Takes a record that is in turn. The line is the first of what is printed.
    pub(crate) fn take(self, said: Placed) -> Result<(Progress, Option<Line>), Unopenable>
        requires { Takeable self (item_of said.«record») }
        ensures lines { taken_as result ≡ as_lines (taken (progress_of self) said.entry.place (item_of said.entry.«record»)) }
        ensures stage { Unshut result }
    {
        match self {
            Progress::Fresh(storage) => {
                let Record::Terms(terms) = said.record else {
                    unreachable()
                };
                Ok((Progress::Gathering(storage.gather(terms)), None))
            }
            Progress::Gathering(gathering) => gathering.take(said),
            Progress::Going(session) => {
                let (session, line) = session.hear(said);
                Ok((Progress::Going(session), line))
            }
            Progress::Over => unreachable(),
        }
    }

    // The end of the file: what is still to do is done, and the line says if there was no settlement.
    pub(crate) fn finish(self) -> Result<Option<Line>, Unopenable>
        ensures { ended_as result ≡ lines_from (ending (progress_of self)) }
    {
        match self {
            Progress::Fresh(_) | Progress::Over => Ok(None),
            Progress::Gathering(gathering) => {
                let held = gathering.open()?;
                let (_, line) = Session::Enrolling(held).finish();
                Ok(line)
            }
            Progress::Going(session) => {
                let (_, line) = session.finish();
                Ok(line)
            }
        }
    }
}
