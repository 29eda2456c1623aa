//! What accesses leave in the words of guest memory, in any order of them.
#![tactic(auto)]

ghost use Rattle.word_laws.specs.Accesses.{AccessesAreAnswered, AccessesAreAsked};
ghost use Rattle.word_laws.specs.Example.{AnAddComesBetween, TwoAccessesAreTold};
ghost use Rattle.word_laws.specs.Words.{AccessesFindWhatWasLeft, AddsSumUp, OwnIsFound, WordsHoldWhatIsLeft};

/// `left`: a word holds what it held at the start, as each access of it changed that, one after
/// another. `adds`: one on which only reads and adds were made holds its start value and the sum of
/// what was added, modulo 2^64. `finds`: an access finds in its word what an earlier one left there,
/// as each access between the two changed that. `own`: an actor's read gives what it wrote itself,
/// where nobody wrote or added since. `example`: a lawful history in which another actor added
/// between.
pub fn words_hold_what_accesses_leave()
    ensures left { WordsHoldWhatIsLeft }
    ensures adds { AddsSumUp }
    ensures finds { AccessesFindWhatWasLeft }
    ensures own { OwnIsFound }
    ensures example { AnAddComesBetween }
{}

/// In any lawful history, `told`: the accesses of an actor are those of which its answers say that
/// they reached a frame, each once and in their order, but for one whose line isn't answered yet.
/// `asked`: each is what a line asks for that the actor began, at most one a line, in the order in
/// which it began them. `example`: what a closed history of two virtual processors shows.
pub fn accesses_are_answered()
    ensures told { AccessesAreAnswered }
    ensures asked { AccessesAreAsked }
    ensures example { TwoAccessesAreTold }
{}
