ghost use Rattle.curve.specs.declared.side.Shape.{Shape as TheShape};
ghost use Rattle.curve.specs.declared.side.Shape.TheVariants.{Steps as BySteps, Lines as ByLines};

use crate::side::Shape;

// The form of a curve, as a type; contracts name it by its `Shape`.
pub trait Form {
    ghost SHAPE: { TheShape };

    const SHAPE: Shape;
}

// The form of a stepped curve.
#[derive(Clone, Copy)]
pub struct Steps;

impl Form for Steps {
    ghost SHAPE = { BySteps };

    const SHAPE: Shape = Shape::Steps;
}

// The form of a straight curve.
#[derive(Clone, Copy)]
pub struct Lines;

impl Form for Lines {
    ghost SHAPE = { ByLines };

    const SHAPE: Shape = Shape::Lines;
}
