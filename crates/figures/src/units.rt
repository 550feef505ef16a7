// The units of the worked auction.

use book::{Application, Side};

pub const HOLT: Application = Application {
    capacity: 9_000,
    class: 0,
    side: Side::Maker,
    years: 1,
    random: 4,
    name: *b"HOLT-1  ",
};

pub const BECK: Application = Application {
    capacity: 10_000,
    class: 0,
    side: Side::Taker,
    years: 1,
    random: 9,
    name: *b"BECK-2  ",
};

pub const COMBE: Application = Application {
    capacity: 1_400,
    class: 2,
    side: Side::Maker,
    years: 15,
    random: 2,
    name: *b"COMBE-3 ",
};

pub const DALE: Application = Application {
    capacity: 1_000,
    class: 3,
    side: Side::Maker,
    years: 1,
    random: 7,
    name: *b"DALE-4  ",
};

pub const EDGE: Application = Application {
    capacity: 2_000,
    class: 1,
    side: Side::Maker,
    years: 3,
    random: 5,
    name: *b"EDGE-5  ",
};
