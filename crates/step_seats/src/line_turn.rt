//! One turn of a line, whatever its form: the order of its steps is `mmu_steps`'s, and nothing of
//! it is said here.
ghost use Rattle.std.specs.Prelude.{◌≡◌, ◌≢◌, ◌<◌, IfOk, OnErr, OnOk, length};
ghost use Rattle.core_views.specs.declared.place.Place.TheVariants.{Between};
ghost use Rattle.mmu_core.specs.machine.Turns.{IsSameHand, line_of};
ghost use Rattle.step_seats.specs.LineTurns.{Says, TurnsLine, cause_at, turn_told};
ghost use Rattle.step_seats.specs.Moves.{KeepsSeat, KeepsRoom};

use crate::{Stepper, Turn};
use core_views::{AccessPlace, Cause, FaultEnd, FaultPlace, NoMemory, Place};
use mmu_steps::{Waiting, next_kind, rests};

// Why an access begins anew with the step of this place, if it does.
fn cause_of(place: Place) -> Option<Cause>
    ensures { result ≡ cause_at place }
{
    match place {
        Place::Access(AccessPlace::Fault(FaultPlace::End(FaultEnd::Retry { cause, .. }))) => {
            Some(cause)
        }
        _ => None,
    }
}

// Makes the next step of the hand's next line, and says how the turn ends.
fn make_turn<S: Stepper>(s: &mut S) -> Turn<()>
    requires left { length (S.seat s.old).hand.answers < length (S.seat s.old).hand.lines }
    requires reserved { 0 < (S.seat s.old).room }
    ensures turns { TurnsLine (turn_told result (S.seat s.old).hand (S.seat s.new).hand) (S.seat s.old) (S.seat s.new) }
    ensures keeps { KeepsSeat (S.seat s.old) (S.seat s.new) (S.frame s.old) (S.frame s.new) }
{
    let hand = s.hand();
    rests(hand);
    let answered = hand.answers().len();
    let anew = cause_of(hand.progress().place);
    let kind = next_kind(hand);
    let waiting = Waiting::of(kind, hand);
    let found = s.act(kind);
    if waiting.waits(found) {
        return Turn::Wait(waiting.seen(kind, found));
    }
    if let Some(cause) = anew {
        return Turn::Retry(cause);
    }
    match s.hand().answers().get(answered) {
        Some(_) => Turn::Done(()),
        None => Turn::More,
    }
}

/// Makes the next step of the hand's next line, and says whether the line is answered: `Done`
/// after its last step, where the hand has the answer; `Wait` where another actor stands in the
/// way, with what was seen of it; `Retry` where a fault begins anew, with its cause. It takes no
/// memory but the room that was reserved.
pub fn turn_line<S: Stepper>(s: &mut S) -> Turn<()>
    requires left { length (S.seat s.old).hand.answers < length (S.seat s.old).hand.lines }
    requires reserved { 0 < (S.seat s.old).room }
    ensures turns { TurnsLine (turn_told result (S.seat s.old).hand (S.seat s.new).hand) (S.seat s.old) (S.seat s.new) }
    ensures says { Says (turn_told result (S.seat s.old).hand (S.seat s.new).hand) (line_of (S.seat s.old).hand) (S.seat s.old).hand (S.seat s.new).hand }
    ensures hand { IsSameHand (S.seat s.old).hand (S.seat s.new).hand }
    ensures keeps { KeepsSeat (S.seat s.old) (S.seat s.new) (S.frame s.old) (S.frame s.new) }
{
    make_turn(s)
}

// Takes the room that the hand's next line needs, where it begins now. One that is under way has
// it: none is taken then, and none can be refused.
fn make_ready<S: Stepper>(s: &mut S) -> Result<(), NoMemory>
    requires left { length (S.seat s.old).hand.answers < length (S.seat s.old).hand.lines }
    ensures reserved { OnOk result (0 < (S.seat s.new).room) }
    ensures begins { OnErr result ((S.seat s.old).hand.state.place ≡ Between) }
    ensures under_way { (S.seat s.old).hand.state.place ≢ Between → (S.seat s.new).room ≡ (S.seat s.old).room }
    ensures refused { OnErr result ((S.seat s.new).room ≡ (S.seat s.old).room) }
    ensures hand { (S.seat s.new).hand ≡ (S.seat s.old).hand }
    ensures told { (S.seat s.new).tells ≡ (S.seat s.old).tells }
    ensures same { ((S.seat s.new).actor ≡ (S.seat s.old).actor) × (S.frame s.new ≡ S.frame s.old) }
{
    match s.hand().progress().place {
        Place::Between => s.reserve(),
        _ => Ok(()),
    }
}

/// Makes the actor's next turn, which is one of the hand's next line. Where memory is
/// refused no step is made; a turn of a line that is under way takes none.
pub fn take_turn<S: Stepper>(s: &mut S) -> Result<Turn<()>, NoMemory>
    requires left { length (S.seat s.old).hand.answers < length (S.seat s.old).hand.lines }
    ensures turns { IfOk result (λ turn. TurnsLine (turn_told turn (S.seat s.old).hand (S.seat s.new).hand) (S.seat s.old) (S.seat s.new)) }
    ensures says { IfOk result (λ turn. Says (turn_told turn (S.seat s.old).hand (S.seat s.new).hand) (line_of (S.seat s.old).hand)
        (S.seat s.old).hand (S.seat s.new).hand) }
    ensures hand { IsSameHand (S.seat s.old).hand (S.seat s.new).hand }
    ensures begins { OnErr result ((S.seat s.old).hand.state.place ≡ Between) }
    ensures room { IfOk result (λ _. (S.seat s.old).hand.state.place ≢ Between → KeepsRoom (S.seat s.old) (S.seat s.new)) }
    ensures refused { OnErr result (((S.seat s.new).hand ≡ (S.seat s.old).hand) × ((S.seat s.new).tells ≡ (S.seat s.old).tells)
        × ((S.seat s.new).room ≡ (S.seat s.old).room)) }
    ensures same { ((S.seat s.new).actor ≡ (S.seat s.old).actor) × (S.frame s.new ≡ S.frame s.old) }
{
    make_ready(s)?;
    Ok(turn_line(s))
}
