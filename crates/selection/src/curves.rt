use curve::{Stepped, Straight};

// A curve of one of the two forms.
// An enum, since the file selects it at run time and the gate refuses a function that hands out a `dyn` value it makes.
#[derive(Drop)]
pub enum SelectedCurve {
    Straight(Straight),
    Stepped(Stepped),
}
