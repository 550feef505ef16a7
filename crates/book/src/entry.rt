use crate::unit::Standing;

// Which call made an entry.
#[derive(Clone, Copy, PartialEq, Eq, Debug)]
pub enum EntryKind {
    Exit,
    Years,
}

// An entry of the present round that still stands: its kind, of which unit, and how the unit stood before it.
#[derive(Clone, Copy, PartialEq, Eq, Debug)]
pub struct Entry {
    pub kind: EntryKind,
    pub unit: usize,
    pub former: Standing,
}
