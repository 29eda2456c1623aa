ghost use Rattle.std.specs.Prelude.{◌≡◌, ◌<◌};
ghost use Rattle.core_views.specs.Sizes.{AreSizes};
ghost use Rattle.core_views.specs.declared.trace.Op.TheVariants.{Read};
ghost use Rattle.host_map.specs.Touching.{LeavesWords, Touches, touch_kind};
ghost use Rattle.mmu_core.specs.machine.Enabled.{Enabled};
ghost use Rattle.step_seats.specs.Moves.{KeepsSeat};

use core_views::{Kind, Op, Sizes, StepKind};
use part_steps::map_of;
use step_seats::{Stepper, part_rests};

/// The operation on a word of a frame, as the words of the machine see it.
fn touch_kind(sizes: &Sizes, frame: u64, word: u8, op: Op, note: u64) -> Kind
    requires sizes { AreSizes sizes.now }
    requires frame { frame < sizes.now.frames }
    requires word { word < sizes.now.words }
    ensures { result ≡ touch_kind sizes.now frame word op note }
{
    let map = map_of(sizes);
    let (kind, new) = match op {
        Op::Read => (StepKind::Read, 0),
        Op::Write(number) => (StepKind::Write, number),
        Op::Add(number) => (StepKind::Add, number),
    };
    Kind {
        code: kind.code(),
        word: map.word_of_content(map.content_index(frame, word)),
        old: 0,
        new,
        note,
    }
}

/// Makes the guest's operation on word `word` (below the words of a frame) of a
/// frame of the machine: a read, a write, or an add modulo 2^64. It answers what
/// the word held before. It never waits and takes no memory.
pub fn touch<S: Stepper>(s: &mut S, frame: u64, word: u8, op: Op, note: u64) -> u64
    requires frame { frame < (S.seat s.old).hand.state.sizes.frames }
    requires word { word < (S.seat s.old).hand.state.sizes.words }
    requires enabled { Enabled (S.seat s.old).hand (touch_kind (S.seat s.old).hand.state.sizes frame word op note) }
    requires reserved { 0 < (S.seat s.old).room }
    ensures touches { Touches frame word op note result (S.seat s.old) (S.seat s.new) }
    ensures keeps { KeepsSeat (S.seat s.old) (S.seat s.new) (S.frame s.old) (S.frame s.new) }
{
    let hand = s.hand();
    part_rests(hand);
    let kind = touch_kind(&hand.progress().sizes, frame, word, op, note);
    s.act(kind)
}

/// Loads word `word` (below the words of a frame) of a frame of the machine, and
/// answers it. It never waits and takes no memory.
pub fn load<S: Stepper>(s: &mut S, frame: u64, word: u8, note: u64) -> u64
    requires frame { frame < (S.seat s.old).hand.state.sizes.frames }
    requires word { word < (S.seat s.old).hand.state.sizes.words }
    requires enabled { Enabled (S.seat s.old).hand (touch_kind (S.seat s.old).hand.state.sizes frame word Read note) }
    requires reserved { 0 < (S.seat s.old).room }
    ensures touches { Touches frame word Read note result (S.seat s.old) (S.seat s.new) }
    ensures words { LeavesWords frame word note (S.seat s.old) (S.seat s.new) }
    ensures keeps { KeepsSeat (S.seat s.old) (S.seat s.new) (S.frame s.old) (S.frame s.new) }
{
    touch(s, frame, word, Op::Read, note)
}
