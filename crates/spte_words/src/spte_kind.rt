/// What an entry's word says at its level.
#[derive(Clone, Copy, Debug, PartialEq, Eq, Drop)]
pub enum SpteKind {
    /// Nothing is mapped.
    Absent,
    /// Its table is being removed: no step may change the entry.
    Frozen,
    /// A span of frames.
    Leaf,
    /// A link to the table of the level below, in this pool page.
    Table(u32),
}
