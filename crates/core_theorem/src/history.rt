//! What the events of every run tell of flat guest memory.
ghost use Rattle.core_theorem.specs.Runs.{TellsLawfully, WordsStandForFacts};

/// What every run tells. `lawful`: each access, each exit and each answer is one that flat guest
/// memory allows. `facts`: the words stand for the slots, host pages and contents that the events
/// so far make of flat guest memory.
pub fn every_run_history()
    ensures lawful { TellsLawfully }
    ensures facts { WordsStandForFacts }
{}
