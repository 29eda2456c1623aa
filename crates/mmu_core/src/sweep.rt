/// Where a sweep stands after an entry.
#[derive(Clone, Copy)]
pub enum SweepNext {
    /// It has come to its end.
    Over,
    /// At a leaf that is to be changed.
    Leaf,
    /// At the next entry, which it is to load.
    Entry,
}
