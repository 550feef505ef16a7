ghost use Rattle.std.specs.Prelude.{◌≡◌, ◌≤◌, length, vec_capacity};

use crate::entry::Entry;
use crate::unit::Unit;
use std::alloc::{AllocError, Global};

pub const MOST_UNITS: usize = 512;

pub const MOST_ENTRIES: usize = 1_024;

// Room for a book, made beforehand, so that the book itself never asks for memory.
#[derive(Drop)]
pub struct Room {
    pub(crate) units: Vec<Unit>,
    pub(crate) entries: Vec<Entry>,
    pub(crate) heap: Global,
    ghost empty: { length units.items ≡ 0 },
    ghost silent: { length entries.items ≡ 0 },
    ghost wide: { 512 ≤ vec_capacity units },
    ghost long: { 1024 ≤ vec_capacity entries },
}

impl Room {
    pub fn new(heap: Global) -> Result<Room, AllocError> {
        let units = Vec::with_capacity(heap, MOST_UNITS)?;
        let entries = Vec::with_capacity(heap, MOST_ENTRIES)?;
        Ok(Room {
            units,
            entries,
            heap,
        })
    }
}
