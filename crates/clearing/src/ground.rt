ghost use Rattle.std.specs.Prelude.{◌≡◌};
ghost use Rattle.clearing.specs.GroundNumbers.{ground_number};

// The ground on which a clearing round settles.
#[derive(Clone, Copy, PartialEq, Eq, Debug)]
pub enum Ground {
    // what is in is exactly the demand at the floor
    FloorExact = 1,
    // with an exit it is exactly the demand at that exit's price
    ExitExact = 2,
    // every exit fits
    AllFit = 3,
    // the first exit that does not fit is taken all the same
    NextTaken = 4,
    // the first exit that does not fit is left out
    NextLeft = 5,
}

// The number of the ground, 1 to 5.
impl From<Ground> for u32 {
    ghost from_gives = { λ g n. n ≡ ground_number g };

    fn from(ground: Ground) -> u32 {
        ground as u32
    }
}
