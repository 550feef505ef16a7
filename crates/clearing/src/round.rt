ghost use Rattle.clearing.specs.Premise.{Clearable, Clearable-prop};

use ranking::Exit;

// A round to be cleared: its floor, the capacity still in when it is closed, and its exits in their ranking.
#[derive(Clone, Copy)]
pub struct Round<'a> {
    pub floor: u32,
    pub capacity_in: u32,
    pub exits: &'a [Exit],
    pub ghost clearable: { Clearable floor capacity_in exits.now } by { Clearable-prop floor capacity_in exits.now },
}
