// What was passed and not taken, given back with the reason.
#[derive(Drop)]
pub struct GivenBack<T, W> {
    pub value: T,
    pub why: W,
}
