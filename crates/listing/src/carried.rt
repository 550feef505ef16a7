// How a fault comes up from the layer that met it, and the line that it ends in.

ghost use Rattle.std.specs.Prelude.{◌≡◌};
ghost use Rattle.listing.specs.declared.fault.Fault.TheVariants.{File, Auction};
ghost use Rattle.listing.specs.declared.fault.Unopenable.TheVariants.{Curve, Open};
ghost use Rattle.listing.specs.Faults.{why_layer, why_number, fault_layer, fault_number, fault_place, fault_line};

use crate::fault::{AuctionFault, Fault, Layer, Unopenable};
use crate::line::Line;
use auction::Refusal;
use bidfile::FileFault;
use curve::{CurveRefusal, GivenBack};

impl Unopenable {
    // The layer whose question it is.
    fn layer(self) -> Layer
        ensures { result ≡ why_layer self }
    {
        match self {
            Unopenable::Curve(_) => Layer::Curve,
            Unopenable::Open(_) => Layer::Auction,
        }
    }
}

impl Fault {
    // The layer whose question ended the run.
    pub fn layer(self) -> Layer
        ensures { result ≡ fault_layer self }
    {
        match self {
            Fault::File(_) => Layer::File,
            Fault::Auction(fault) => fault.why.layer(),
        }
    }

    // The word of the file that it is printed with.
    pub fn place(self) -> usize
        ensures { result ≡ fault_place self }
    {
        match self {
            Fault::File(fault) => fault.place,
            Fault::Auction(fault) => fault.place,
        }
    }
}

// The number under which docs/questions.md lists the question.
impl From<Unopenable> for u32 {
    ghost from_gives = { λ why r. r ≡ why_number why };

    fn from(why: Unopenable) -> u32 {
        match why {
            Unopenable::Curve(refusal) => u32::from(refusal),
            Unopenable::Open(refusal) => u32::from(refusal),
        }
    }
}

// The number under which docs/questions.md lists the question that ended the run.
impl From<Fault> for u32 {
    ghost from_gives = { λ fault r. r ≡ fault_number fault };

    fn from(fault: Fault) -> u32 {
        match fault {
            Fault::File(fault) => u32::from(fault),
            Fault::Auction(fault) => u32::from(fault.why),
        }
    }
}

impl From<Fault> for Line {
    ghost from_gives = { λ fault r. r ≡ fault_line fault };

    fn from(fault: Fault) -> Line {
        Line::Fault {
            layer: fault.layer(),
            question: u32::from(fault),
            place: fault.place(),
        }
    }
}

impl From<FileFault> for Fault {
    ghost from_gives = { λ fault r. r ≡ File fault };

    fn from(fault: FileFault) -> Fault {
        Fault::File(fault)
    }
}

impl From<AuctionFault> for Fault {
    ghost from_gives = { λ fault r. r ≡ Auction fault };

    fn from(fault: AuctionFault) -> Fault {
        Fault::Auction(fault)
    }
}

// It is printed with word 0, wherever its question comes.
impl From<Unopenable> for AuctionFault {
    ghost from_gives = { λ why r. r ≡ record { why = why; place = 0 } };

    fn from(why: Unopenable) -> AuctionFault {
        AuctionFault { why, place: 0 }
    }
}

impl From<Unopenable> for Fault {
    ghost from_gives = { λ why r. r ≡ Auction (record { why = why; place = 0 }) };

    fn from(why: Unopenable) -> Fault {
        Fault::Auction(AuctionFault::from(why))
    }
}

impl From<CurveRefusal> for AuctionFault {
    ghost from_gives = { λ refusal r. r ≡ record { why = Curve refusal; place = 0 } };

    fn from(refusal: CurveRefusal) -> AuctionFault {
        AuctionFault::from(Unopenable::Curve(refusal))
    }
}

impl From<Refusal> for AuctionFault {
    ghost from_gives = { λ refusal r. r ≡ record { why = Open refusal; place = 0 } };

    fn from(refusal: Refusal) -> AuctionFault {
        AuctionFault::from(Unopenable::Open(refusal))
    }
}

impl From<CurveRefusal> for Unopenable {
    ghost from_gives = { λ refusal r. r ≡ Curve refusal };

    fn from(refusal: CurveRefusal) -> Unopenable {
        Unopenable::Curve(refusal)
    }
}

impl From<Refusal> for Unopenable {
    ghost from_gives = { λ refusal r. r ≡ Open refusal };

    fn from(refusal: Refusal) -> Unopenable {
        Unopenable::Open(refusal)
    }
}

// Where no curve was made of the corners. Not one impl with the next, over `W: Into<Unopenable>`: it would not say which
// layer's question it carries.
impl<T: Drop> From<GivenBack<T, CurveRefusal>> for Unopenable {
    ghost from_gives = { λ back r. r ≡ Curve back.why };

    fn from(back: GivenBack<T, CurveRefusal>) -> Unopenable {
        Unopenable::from(back.why)
    }
}

// Where no auction was opened over the curve.
impl<T: Drop> From<GivenBack<T, Refusal>> for Unopenable {
    ghost from_gives = { λ back r. r ≡ Open back.why };

    fn from(back: GivenBack<T, Refusal>) -> Unopenable {
        Unopenable::from(back.why)
    }
}
