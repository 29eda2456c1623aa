use core_views::{Answer, Place};

/// Where a line stands after a step.
#[derive(Drop)]
pub enum Outcome {
    /// It goes on with the step of this place.
    Goes(Place),
    /// It is answered.
    Ends(Answer),
}
