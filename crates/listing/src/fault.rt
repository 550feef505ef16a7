use auction::Refusal;
use bidfile::FileFault;
use curve::CurveRefusal;

// The layer whose question ended a run.
#[derive(Clone, Copy, PartialEq, Eq, Debug)]
pub enum Layer {
    File,
    Curve,
    Auction,
}

// Why no auction was opened: the question of the curve, or that of Open.
#[derive(Clone, Copy, PartialEq, Eq, Debug)]
pub enum Unopenable {
    Curve(CurveRefusal),
    Open(Refusal),
}

// An auction that could not be opened, and the word that it is printed with: that of one carried from its question is 0, since
// its curve and terms are not of one record.
#[derive(Clone, Copy, PartialEq, Eq, Debug)]
pub struct AuctionFault {
    pub why: Unopenable,
    pub place: usize,
}

// What ends a run.
#[derive(Clone, Copy, PartialEq, Eq, Debug)]
pub enum Fault {
    File(FileFault),
    Auction(AuctionFault),
}
