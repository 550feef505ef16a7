ghost use Rattle.auction.specs.declared.clocks.Stage.{Stage as TheStage};
ghost use Rattle.auction.specs.declared.clocks.Stage.TheVariants as stage;

use crate::clocks::Stage;

// The kind of a clock, as a type: the stage that its auction is at.
pub trait ClockKind {
    ghost STAGE: { TheStage };

    const STAGE: Stage;
}

#[derive(Clone, Copy)]
pub struct Enrolling;

impl ClockKind for Enrolling {
    ghost STAGE = { stage.Enrolling };

    const STAGE: Stage = Stage::Enrolling;
}

#[derive(Clone, Copy)]
pub struct Open;

impl ClockKind for Open {
    ghost STAGE = { stage.Open };

    const STAGE: Stage = Stage::Open;
}

#[derive(Clone, Copy)]
pub struct Shut;

impl ClockKind for Shut {
    ghost STAGE = { stage.Shut };

    const STAGE: Stage = Stage::Shut;
}

#[derive(Clone, Copy)]
pub struct Settled;

impl ClockKind for Settled {
    ghost STAGE = { stage.Settled };

    const STAGE: Stage = Stage::Settled;
}
