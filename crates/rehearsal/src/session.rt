// A record that an open auction hears.

ghost use Rattle.std.specs.Prelude.{◌≡◌, true};
ghost use Rattle.bidfile.specs.Items.{item_of};
ghost use Rattle.rehearsal.specs.Hearing.{begun_in, begun_for, gone_on, called, Callable, Hearable};
ghost use Rattle.rehearsal.specs.Progress.{due_in};
ghost use Rattle.rehearsal.specs.Events.{heard};
ghost use Rattle.rehearsal.specs.Saying.{in_full, spoken};
ghost use Rattle.rehearsal.specs.Sessions.{session_state, session_stage, unshut};

use crate::stages::Session;
use bidfile::{Due, Placed, Record};
use listing::Line;

impl Session {
    // The records that are in turn.
    pub(crate) fn due(&self) -> Due
        ensures { result ≡ due_in (session_stage self.now) }
    {
        match self {
            Session::Enrolling(_) => Due::Units,
            Session::Open(_) | Session::Shut(_) => Due::Entries,
            Session::Settled(_) => Due::Nothing,
        }
    }

    // Begins the auction, if it has not.
    pub(crate) fn begun(self) -> Session
        ensures { session_state result ≡ begun_in (session_state self) (session_stage self) }
    {
        match self {
            Session::Enrolling(enrolment) => Session::Open(enrolment.begin()),
            session => session,
        }
    }

    // Begins the auction before the first exit, years, step back or close.
    fn begun_for(self, said: &Record<&[u8]>) -> Session
        ensures { session_state result ≡ begun_for (session_state self) (item_of said.now) (session_stage self) }
    {
        match said {
            Record::Terms(_) | Record::Corner(_) | Record::Unit(_) => self,
            Record::Exit(_) | Record::Years(_) | Record::StepBack | Record::Close => self.begun(),
        }
    }

    // Makes the call of a record.
    fn call(self, said: Placed) -> (Session, Option<Line>)
        requires { Callable (session_stage self) (item_of said.«record») }
        ensures { (session_state result.0, result.1) ≡ called said.entry.place (session_state self) (item_of said.entry.«record») }
    {
        match self {
            Session::Enrolling(enrolment) => enrolment.call(said),
            Session::Open(round) => round.call(said),
            Session::Shut(_) | Session::Settled(_) => unreachable(),
        }
    }

    // Opens the round after one that was shut.
    fn gone_on(self) -> Session
        ensures state { session_state result ≡ gone_on (session_state self) (session_stage self) }
        ensures stage { unshut (session_stage result) ≡ true }
    {
        match self {
            Session::Shut(shut) => Session::Open(shut.next()),
            session => session,
        }
    }

    // Hears a record: begins if it has to, makes the record's call, and goes on behind a round that was shut. The line is
    // the first of what is printed.
    pub(crate) fn hear(self, said: Placed) -> (Session, Option<Line>)
        requires { Hearable (session_stage self) (item_of said.«record») }
        ensures lines { in_full (session_state result.0, result.1) ≡ spoken (heard said.entry.place (session_state self) (item_of said.entry.«record»)) }
        ensures stage { unshut (session_stage result.0) ≡ true }
    {
        let (session, line) = self.begun_for(&said.record).call(said);
        (session.gone_on(), line)
    }
}
