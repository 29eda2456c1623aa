use core_views::Actor;
use std::sync::Wait;

/// What an actor passes before each of its turns. It may hold the actor back.
pub trait Gate {
    /// Called by `actor` before a turn of the line with this number. It
    /// returns when the actor may go on, and may wait for that.
    fn pass<R: Wait>(&self, rt: &R, actor: Actor, line: u32);
}

/// A gate that holds nobody.
#[derive(Clone, Copy, Drop)]
pub struct NoGate;

impl Gate for NoGate {
    fn pass<R: Wait>(&self, _rt: &R, _actor: Actor, _line: u32) {}
}
