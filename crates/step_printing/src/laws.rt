ghost use Rattle.step_printing.specs.Laws.{LinesTellShown, LinesTellTurns};

/// Law: where nothing is asked for, the lines of a run tell its turns one for one, in order,
/// those too that share a line.
pub fn lines_tell_turns()
    ensures { LinesTellTurns }
{}

/// Law: whatever is asked for, the lines of a run tell the turns that are shown, each once,
/// in order.
pub fn lines_tell_shown_turns()
    ensures { LinesTellShown }
{}
