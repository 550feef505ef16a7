use book::Room;

// The prices that an auction is opened with, in pence per kW and year.
#[derive(Clone, Copy, PartialEq, Eq, Debug)]
pub struct Prices {
    pub cap: u32,
    pub spread: u32,
    pub threshold: u32,
}

// What an auction is opened over: its demand curve, its tie order, and the room for its book.
#[derive(Drop)]
pub struct Setting<C, O> {
    pub curve: C,
    pub order: O,
    pub room: Room,
}
