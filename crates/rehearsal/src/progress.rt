use crate::stages::Session;
use crate::storage::{Gathering, Storage};

// How far a run has come: no record has come; the terms and the corners so far are kept; an auction is open; it has ended.
#[derive(Drop)]
pub(crate) enum Progress {
    Fresh(Storage),
    Gathering(Gathering),
    Going(Session),
    Over,
}
