/// What a watch comes to with a look at an actor.
#[derive(Clone, Copy)]
pub enum WatchNext {
    /// The actor is in the guest or in a section: the watch looks at it again.
    Again,
    /// It looks at the next one.
    Next,
    /// It has looked at all.
    Last,
}
