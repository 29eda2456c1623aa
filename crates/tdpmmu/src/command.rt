/// What the program is asked to do with a trace.
#[derive(Clone, Copy, Drop)]
pub enum Command {
    /// Say how many lines belong to an actor, and how many pool pages the
    /// trace needs.
    Check,
    /// Run each line alone, in file order, and print what it is answered.
    Replay,
    /// Run the lines above `go` alone, in file order, then all others a step a turn,
    /// in the order of the schedule and then in rounds, and print what they are
    /// answered, in the order of the answers.
    Weave,
    /// Run the lines above `go` alone, in file order, then all others with a thread for
    /// each actor, and print what all lines are answered, in file order, and guest memory.
    Live,
}
