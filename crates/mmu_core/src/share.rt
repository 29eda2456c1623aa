/// What sharing the lock comes to with one of its steps.
#[derive(Clone, Copy)]
pub enum ShareNext {
    /// There is a step of it left.
    Tries,
    /// The line shares the lock.
    Shares,
}
