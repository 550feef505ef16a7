ghost use Rattle.std.specs.Prelude.{◌≡◌, ◌≤◌, length, vec_capacity};

use bidfile::TermsRecord;
use book::Room;
use curve::Corner;
use std::alloc::{AllocError, Global};

// The most corner records that a bid file can hold.
const MOST_CORNERS: usize = 8_191;

// All that a run can want memory for, made beforehand, so that the run itself asks for none.
#[derive(Drop)]
pub struct Storage {
    pub(crate) room: Room,
    pub(crate) corners: Vec<Corner>,
    ghost empty: { length corners.items ≡ 0 },
    ghost wide: { 8191 ≤ vec_capacity corners },
}

impl Storage {
    pub fn new(heap: Global) -> Result<Storage, AllocError> {
        let room = Room::new(heap)?;
        let corners = Vec::with_capacity(heap, MOST_CORNERS)?;
        Ok(Storage { room, corners })
    }
}

// The terms and the corners that have come, while corners may follow.
#[derive(Drop)]
pub(crate) struct Gathering {
    pub(crate) terms: TermsRecord,
    pub(crate) corners: Vec<Corner>,
    pub(crate) room: Room,
    ghost wide: { 8191 ≤ vec_capacity corners },
}
