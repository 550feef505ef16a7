// One of the two orders of ties.
// An enum, since the file selects it at run time and the gate refuses a function that hands out a `dyn` value it makes.
#[derive(Clone, Copy)]
pub enum SelectedOrder {
    ByRule,
    ByName,
}
