// The worked figures follow from the rules.

ghost use Rattle.figures.specs.Worked.{WorkedFigures};

pub fn figures_follow_from_the_rules()
    ensures { WorkedFigures }
{}
