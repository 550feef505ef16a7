ghost use Rattle.std.specs.Prelude.{◌≡◌};
ghost use Rattle.bidtext.specs.declared.faults.TextFault.TheVariants.{Memory};

use crate::expected::Expected;
use std::alloc::AllocError;

// Why a text gives no words: a line that cannot be read, with its number and what was expected there, or want of memory.
#[derive(Clone, Copy, PartialEq, Eq, Debug)]
pub enum TextFault {
    Line(usize, Expected),
    Memory,
}

impl From<AllocError> for TextFault {
    ghost from_gives = { λ _ fault. fault ≡ Memory };

    fn from(_: AllocError) -> TextFault {
        TextFault::Memory
    }
}
