use core_views::Actor;

/// In which form a run is shown.
#[derive(Clone, Copy, Drop)]
pub enum Form {
    /// Its steps, one after another.
    Steps,
}

/// Which run is shown.
#[derive(Clone, Copy, Drop)]
pub enum Command {
    /// A weave: by the trace's schedule, and then in rounds.
    Weave,
    /// A replay: each line alone, in file order.
    Replay,
}

/// A place in the order of turns.
#[derive(Clone, Copy, Drop)]
pub enum Bound {
    /// Where the lines below `go` begin.
    Go,
    /// The turn with this number, from 1.
    Turn(u64),
    /// The line of the trace with this number: its first turn, or its last one.
    Line(u64),
}

/// What the words ask for.
#[derive(Clone, Copy, Drop)]
pub struct Asked {
    /// The usage, and nothing else.
    pub help: bool,
    /// The form that was named, if one was.
    pub form: Option<Form>,
    /// The run that was named, if one was.
    pub command: Option<Command>,
    /// The first turn that is shown.
    pub from: Option<Bound>,
    /// The last turn that is shown; with `Bound::Go`, the one before.
    pub to: Option<Bound>,
    /// The only actor whose turns are shown.
    pub actor: Option<Actor>,
    /// The only kind of step that is shown, by its number.
    pub kind: Option<u8>,
    /// Which word of the call names the only word whose steps are shown.
    pub word: Option<usize>,
    /// Only turns are shown that changed a word, waited, began anew or answered.
    pub changes: bool,
}
