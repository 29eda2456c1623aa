ghost use Rattle.std.specs.Prelude.{◌≡◌, ◌<◌, Some, true};
ghost use Rattle.host_map.specs.Touching.{MakesExchange, IsExchange, LeavesHostWord, WasHostWord, holding_changed, holding_word, after_exchange};
ghost use Rattle.mmu_core.specs.machine.MayMake.{MayMake};
ghost use Rattle.part_steps.specs.declared.part_step.PartStep.TheVariants.{Bring, Change, Host};
ghost use Rattle.part_steps.specs.PageRuns.{one_look};
ghost use Rattle.part_steps.specs.PartTasks.{word_looked};
ghost use Rattle.spte_words.specs.HostWords.{with_presence};
ghost use Rattle.step_seats.specs.Moves.{KeepsSeat};
ghost use Rattle.step_seats.specs.PartTurns.{MadePart};

use part_steps::PartStep;
use step_seats::{Stepper, make_part, word_looked};

/// Loads the host word of a host page (below the pages of the machine), keeps it
/// with its page, and answers it: whether the page is present and writable, the
/// level of its mapping, and its frame (`HostWord`; KVM's mmu.rst, "Memory"). It
/// never waits and takes no memory.
pub fn look<S: Stepper>(s: &mut S, page: u64, note: u64) -> u64
    requires may { MayMake (Host page) note (S.seat s.old).hand }
    requires reserved { 0 < (S.seat s.old).room }
    ensures step { MadePart (Host page) note result (S.seat s.old) (S.seat s.new) }
    ensures host { (S.seat s.new).hand.topics ≡ record (S.seat s.old).hand.topics { host = Some (record { page = page; word = result }); row = one_look } }
    ensures told { WasHostWord page note result (S.seat s.old) (S.seat s.new) }
    ensures keeps { KeepsSeat (S.seat s.old) (S.seat s.new) (S.frame s.old) (S.frame s.new) }
{
    make_part(s, PartStep::Host(page), note)
}

/// What came of an exchange of the host word that was looked up.
#[derive(Clone, Copy, Debug, PartialEq, Eq, Drop)]
pub enum Changed {
    /// The page has the new host word.
    Set,
    /// Another actor had exchanged the host word before: this one was found, and stays.
    Lost(u64),
}

// Makes this step, which exchanges the host word that was looked up, and says what came of it.
fn exchange<S: Stepper>(s: &mut S, step: PartStep, note: u64) -> Changed
    requires exchange { IsExchange step }
    requires may { MayMake step note (S.seat s.old).hand }
    requires reserved { 0 < (S.seat s.old).room }
    ensures step { MakesExchange step note result (S.seat s.old) (S.seat s.new) }
    ensures host { (S.seat s.new).hand.topics ≡ after_exchange step result (S.seat s.old).hand.topics }
    ensures told { LeavesHostWord result step note (S.seat s.old) (S.seat s.new) }
    ensures keeps { KeepsSeat (S.seat s.old) (S.seat s.new) (S.frame s.old) (S.frame s.new) }
{
    let looked = word_looked(s.hand().topics().host);
    let seen = make_part(s, step, note);
    if seen == looked {
        Changed::Set
    } else {
        Changed::Lost(seen)
    }
}

/// Brings the host page in that was looked up, which isn't present: exchanges its host word for
/// the same one with the page present (KVM's mmu.rst, "Memory": the host's map is what the
/// tables follow, so the host has the page first). The hand keeps what the page's host word is
/// then: with the page present after `Set`, and after `Lost` the one that was found. It never
/// waits and takes no memory.
pub fn bring_in<S: Stepper>(s: &mut S, note: u64) -> Changed
    requires may { MayMake Bring note (S.seat s.old).hand }
    requires reserved { 0 < (S.seat s.old).room }
    ensures step { MakesExchange Bring note result (S.seat s.old) (S.seat s.new) }
    ensures host { (S.seat s.new).hand.topics
        ≡ holding_word (with_presence true (word_looked (S.seat s.old).hand.topics.host)) result (S.seat s.old).hand.topics }
    ensures told { LeavesHostWord result Bring note (S.seat s.old) (S.seat s.new) }
    ensures keeps { KeepsSeat (S.seat s.old) (S.seat s.new) (S.frame s.old) (S.frame s.new) }
{
    exchange(s, PartStep::Bring, note)
}

/// Exchanges the host word that was looked up for this one (KVM's mmu_notifier.rst: the
/// secondary tables were invalidated before). The hand keeps what the page's host word is
/// then: the new one after `Set`, and after `Lost` the one that was found. Who owned a frame
/// owns the old one after `Set`, out of which the page was moved (page_migration.rst); nobody
/// was watched since. It never waits and takes no memory.
pub fn change<S: Stepper>(s: &mut S, word: u64, note: u64) -> Changed
    requires may { MayMake (Change word) note (S.seat s.old).hand }
    requires reserved { 0 < (S.seat s.old).room }
    ensures step { MakesExchange (Change word) note result (S.seat s.old) (S.seat s.new) }
    ensures host { (S.seat s.new).hand.topics ≡ holding_changed word result (S.seat s.old).hand.topics }
    ensures told { LeavesHostWord result (Change word) note (S.seat s.old) (S.seat s.new) }
    ensures keeps { KeepsSeat (S.seat s.old) (S.seat s.new) (S.frame s.old) (S.frame s.new) }
{
    exchange(s, PartStep::Change(word), note)
}
