use crate::fault::Layer;
use clearing::Ground;
use ranking::Name;

// A line of a listing. Its question is a number, as in the model's answers, so that the two are compared as they stand.
#[derive(Clone, Copy, PartialEq, Eq, Debug)]
pub enum Line {
    Round {
        round: u32,
        cap: u32,
        floor: u32,
        capacity_in: u32,
        demand: u32,
    },
    Refused {
        question: u32,
        place: usize,
    },
    Cleared {
        price: u32,
        ground: Ground,
    },
    Award {
        name: Name,
        capacity: u32,
        years: u32,
    },
    Fault {
        layer: Layer,
        question: u32,
        place: usize,
    },
    Unsettled,
}
