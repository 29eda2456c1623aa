ghost use Rattle.flat_laws.specs.Laws.{FlatIsLawful, FlatIsWhole, FlatStandsAlone, FlatPrints, AloneIsFlat, AloneAnswersAsFlat, AloneIsWhole};
ghost use Rattle.flat_laws.specs.ReachedWrites.{OnlyWritesChange, OnlyWritesCount, ReachedFramesAreKept};
ghost use Rattle.flat_laws.specs.SlotLines.{DeletesAtItsId, FittingPrints, KeepsOtherIds, LogsAtItsId, SetsAsRecord, SetsAtItsId, WholePrints};
ghost use Rattle.flat_laws.specs.HostExamples.{FullPrints, HostPrints, PresentIsNotBroughtIn, AbsentIsNotReached, DeniedIsNotBroughtIn};
ghost use Rattle.flat_laws.specs.HostExamples.{NamedIsNotTaken, OthersAreNotChanged, UnseenIsNotChanged};
ghost use Rattle.flat_laws.specs.LargePages.{LargeIsLookedAt, LargeIsNotChanged, LargePrints, LargeRunsPrint, LargeRunsStandTogether};
ghost use Rattle.flat_laws.specs.LargePages.{LargeWantsNoFrame, RunsPrint, SmallIsChanged};
ghost use Rattle.flat_laws.specs.Writes.{DueFramesAreKept, WritesAreBegun, WritesAreUnderWay, WritesAreRecorded};
ghost use Rattle.flat_laws.specs.Images.{AnsweredImagesAreMemory, AnsweredWordsAreInOrder, AnsweredWordsAreMemory, MigrationsAreImaged};
ghost use Rattle.flat_laws.specs.MigrationCounts.{CopiedTellsPages, NoneIsLeftToCopy};
ghost use Rattle.flat_laws.specs.MigrationRules.{CopyKeepsGuest, FramesOfOneRise, FramesOfSlotsAreCopied, PausesMoveAlone, StartMarksPages};
ghost use Rattle.flat_laws.specs.MigrationRules.{StoppedMemoryStands};
ghost use Rattle.flat_laws.specs.Migrations.{EmptyPrints, MigrationsPrint};
ghost use Rattle.flat_laws.specs.MigrationPauses.{PausedIsAnswered, PausedLooksAtPause, PausedMakesNone};
ghost use Rattle.flat_laws.specs.MigrationTraces.{FirstRefusalsPrint, RefusalsPrint, RoundsPrint};
ghost use Rattle.flat_laws.specs.MigrationRaces.{LateWriteIsCopied, LateWriteIsNotLeftOut, RoundMayLeaveOut};
ghost use Rattle.flat_laws.specs.UnlawfulMigrations.{CopiesFollowAllLogs, CopyFollowsHarvest, CopyIsMemory, FinishStops, FinishTakesAll};
ghost use Rattle.flat_laws.specs.UnlawfulMigrations.{LogsInOrder, NoneIsLeft, PagesInOrder, SlotsInOrder, StoppedMakesNone, WordsInOrder};
ghost use Rattle.flat_laws.specs.Unlawful.{AccessLooksAtPause, AccessReachesItsFrame, ExitLooksAtPause};
ghost use Rattle.flat_laws.specs.Unlawful.{OutsideCannotStarve, OutsideReachesNone, OverlapCannotStarve};
ghost use Rattle.flat_laws.specs.Unlawful.{StarvedLooksAtHost, StarvedLooksAtPause, UnchangedChangesNone};

/// Laws about the definitions alone: the flat history of every list of lines
/// is lawful, answers each line once, in its actor's order, and is made of
/// those lines, each alone. The last three clauses are closed traces, with the bytes
/// that they print: of slot lines and accesses, of host lines too, and of moves that find
/// no frame.
pub fn flat_history_is_lawful()
    ensures lawful { FlatIsLawful }
    ensures whole { FlatIsWhole }
    ensures alone { FlatStandsAlone }
    ensures prints { FlatPrints }
    ensures hosts { HostPrints }
    ensures full { FullPrints }
{}

/// A law about histories alone: a lawful history in which each line stands
/// alone, in file order, and the choices that flat memory leaves open fall as the flat
/// history's do, is the flat history but for what its lines looked at. So it answers and prints the
/// same. However they fall, it begins and answers each line once.
pub fn alone_is_flat()
    ensures flat { AloneIsFlat }
    ensures answers { AloneAnswersAsFlat }
    ensures whole { AloneIsWhole }
{}

/// A law about closed histories that are not lawful: a slot line that is to be
/// refused can't be given up for want of a pool page, nor can an access outside
/// every slot, nor one that hasn't looked at its page of the host. A slot line that sets a
/// slot as it is changes none. An access that
/// reaches a frame, leaves the guest or is given up has looked at the pause, and it
/// reaches the frame that slots and host name, or none. Only a page that isn't present is
/// brought in, and only where the host allows the access, which reaches no page before that.
/// A host thread changes a page of its own alone, at which it looked, and moves it to a frame
/// that no page names.
pub fn unlawful_histories_are_refused()
    ensures starved { OverlapCannotStarve }
    ensures unchanged { UnchangedChangesNone }
    ensures no_page { OutsideCannotStarve }
    ensures unpaused { StarvedLooksAtPause }
    ensures no_host { StarvedLooksAtHost }
    ensures pause { AccessLooksAtPause }
    ensures frame { AccessReachesItsFrame }
    ensures outside { OutsideReachesNone }
    ensures exit { ExitLooksAtPause }
    ensures present { PresentIsNotBroughtIn }
    ensures absent { AbsentIsNotReached }
    ensures denied { DeniedIsNotBroughtIn }
    ensures named { NamedIsNotTaken }
    ensures others { OthersAreNotChanged }
    ensures unseen { UnseenIsNotChanged }
{}

/// A law about closed histories over pages that the host maps as one large page. None of them is
/// moved, evicted, protected or allowed by itself: such a line is refused (`prints`), and so is one that
/// is to make a run large that has such a page (`large`), or that isn't the thread's own (`runs`). It makes no
/// change (`changed`), and isn't refused for want of a frame (`frame`). A line is refused so only where
/// it has looked at its page (`looks`), and this was part of a large one (`small`). And whatever the host
/// maps its pages to, a run that isn't refused to become large begins where runs of its level begin, in
/// pages and in frames, and its pages stand one after the other and alike (`together`).
pub fn large_pages_stay()
    ensures prints { LargePrints }
    ensures runs { RunsPrint }
    ensures large { LargeRunsPrint }
    ensures changed { LargeIsNotChanged }
    ensures frame { LargeWantsNoFrame }
    ensures small { SmallIsChanged }
    ensures looks { LargeIsLookedAt }
    ensures together { LargeRunsStandTogether }
{}

/// A law about what the flat state keeps of a history's writes. An actor and a guest
/// frame stand among those under way exactly while the actor has begun a line that
/// writes the frame, and has not answered it (`begun`); after a lawful history that line
/// is the actor's line under way (`under`). The frames that were written lately, and those
/// that have a cause to stand in a log, are just those of the lines that were under way
/// at some moment since the frame's slot was last changed (`written`): a change counts that
/// has the frame in the slot before it or after it. Written lately is one since a log last
/// began to be read; a cause one since that reading began which took the frame out of its
/// log last, or that each page was dirty as the log began. The frames that a reading must
/// not leave out are those that were dirty as it began, with no such line under way then,
/// or with the guest stopped (`due`).
pub fn writes_are_kept()
    ensures begun { WritesAreBegun }
    ensures under { WritesAreUnderWay }
    ensures written { WritesAreRecorded }
    ensures due { DueFramesAreKept }
{}

/// A law about the accesses that reach memory, whatever their lines were taken to write.
/// After every lawful history each frame that a write or an add has reached, and whose
/// slot was not changed since, is among those that were written lately, if no log began to
/// be read since, and among those that have a cause to stand in a log, if no reading that
/// began since took it out (`reached`). Any other access leaves its word as it
/// was (`others`), and no other line is taken to write a frame (`only`).
pub fn reached_writes_are_kept()
    ensures reached { ReachedFramesAreKept }
    ensures others { OnlyWritesChange }
    ensures only { OnlyWritesCount }
{}

/// A law about what a slot line makes of flat memory's slots: what the manager's record makes of
/// them (`record`); the slot stands at its ID, with a dirty log where the one that was there had
/// one (`set`), or after a deletion none (`deleted`), or as it was, with a dirty log or without
/// (`logged`), and at each other ID what stood there (`others`). The last two clauses are closed
/// traces, with the bytes that they print: of slots that just fit, and of slots one page larger
/// (`fits`); of a slot that is set again, moved and deleted (`whole`).
pub fn slot_lines_set_slots()
    ensures record { SetsAsRecord }
    ensures set { SetsAtItsId }
    ensures deleted { DeletesAtItsId }
    ensures logged { LogsAtItsId }
    ensures others { KeepsOtherIds }
    ensures fits { FittingPrints }
    ensures whole { WholePrints }
{}

/// A law about closed traces of migrations, with the bytes that they print: two migrations of a guest
/// of two slots that writes in them (`migration`), two rounds of one (`rounds`), the refusals of its
/// lines and of others (`refusals`), which of a line's refusals comes first (`first`), and one of a
/// guest without slots (`empty`). The last clauses are closed histories: a write that looked at the
/// pause before it was set reaches memory before the guest is stopped, and is copied (`beside`), and
/// a read that looks at it between the two is paused (`paused`). A round may leave out a page that is
/// still being written (`round`).
pub fn migrations_copy_memory()
    ensures migration { MigrationsPrint }
    ensures rounds { RoundsPrint }
    ensures refusals { RefusalsPrint }
    ensures first { FirstRefusalsPrint }
    ensures empty { EmptyPrints }
    ensures beside { LateWriteIsCopied }
    ensures paused { PausedIsAnswered }
    ensures round { RoundMayLeaveOut }
{}

/// A law about closed histories of migrations that are not lawful: a round doesn't copy before it
/// has read the log (`copy`), of each slot (`logs`), in rising ID (`first_log`); it copies slots,
/// pages and words in their order (`slots`, `pages`, `words`), each word as the page holds it
/// (`memory`), and isn't done before each page is copied (`left`). One that finishes reads no log
/// before the guest is stopped (`stops`), and leaves out no dirty page, whoever still writes it
/// (`all`, `late`). No access is made from the stop on (`stopped`), nor from the pause on by a line
/// that looks at it (`paused`), and none is answered so that didn't look (`looks`).
pub fn unlawful_migrations_are_refused()
    ensures copy { CopyFollowsHarvest }
    ensures logs { CopiesFollowAllLogs }
    ensures first_log { LogsInOrder }
    ensures slots { SlotsInOrder }
    ensures pages { PagesInOrder }
    ensures words { WordsInOrder }
    ensures memory { CopyIsMemory }
    ensures left { NoneIsLeft }
    ensures stops { FinishStops }
    ensures all { FinishTakesAll }
    ensures late { LateWriteIsNotLeftOut }
    ensures stopped { StoppedMakesNone }
    ensures paused { PausedMakesNone }
    ensures looks { PausedLooksAtPause }
{}

/// A law about the image of a migration, over all histories in which one actor alone manages, as
/// the manager does. While a migration goes on, each word of the image of a slot's page is that of
/// memory, or the page is dirty, or yet to be copied (`imaged`). And whatever guests and host
/// threads do, an image that is answered is the guest's memory then, of every slot (`answered`): it
/// has just the words of the slots' pages that aren't 0 (`words`), by rising ID, page and word
/// (`order`).
pub fn images_are_memory()
    ensures imaged { MigrationsAreImaged }
    ensures answered { AnsweredImagesAreMemory }
    ensures words { AnsweredWordsAreMemory }
    ensures order { AnsweredWordsAreInOrder }
{}

/// A law about what the lines of a migration are answered. Where one actor alone manages, as the
/// manager does, none is answered that pages were copied, or the image, while a page of a slot is left
/// to copy (`left`). And in every lawful history one that is answered how many pages it has copied has
/// copied so many since its begin (`count`).
pub fn migrations_copy_all()
    ensures left { NoneIsLeftToCopy }
    ensures count { CopiedTellsPages }
{}

/// A law about the events of a migration. Of the frames that are to be copied it copies those that
/// a slot has (`frames`), and those of one slot in rising order (`rising`). Setting the pause,
/// stopping the guest and resuming it change no other fact than how far the migration has come
/// (`pauses`); its start changes this, and which pages are to be copied (`start`); and a copy the
/// image, and which pages are to be copied (`copy`). So none of them changes the guest's slots,
/// memory or logs, nor its host. And in every lawful history memory stands from the stop of the
/// guest until it is resumed (`stands`).
pub fn migrations_keep_the_guest()
    ensures frames { FramesOfSlotsAreCopied }
    ensures rising { FramesOfOneRise }
    ensures pauses { PausesMoveAlone }
    ensures start { StartMarksPages }
    ensures copy { CopyKeepsGuest }
    ensures stands { StoppedMemoryStands }
{}
