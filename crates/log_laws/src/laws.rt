ghost use Rattle.log_laws.specs.HarvestLaws.{CleanIsNotDirty, HarvestedTakesItsFrames, PendingIsArmed};
ghost use Rattle.log_laws.specs.HarvestLaws.{ReadingsAreCaused, ReadingsAreComplete, ShownTakesNothing, WrittenStaysDirty};
ghost use Rattle.log_laws.specs.ClearTraces.{EachPagePrints, FirstRefusalPrints, ModesTell, OtherSlotPrints, SecondWordPrints, WholeWordsPrint};
ghost use Rattle.log_laws.specs.LogTraces.{AllSetPrints, EndsPrint, GetPrints, ManualPrints};
ghost use Rattle.log_laws.specs.LogTraces.{RangesPrint, ReadPrints, RefusalsPrint, WordsPrint};
ghost use Rattle.log_laws.specs.LogRules.{ArmingArms, BadRangesAreTold, SuchMayBeRead, SuchMayBeReadNext};
ghost use Rattle.log_laws.specs.LogWords.{ClearWordsTellFrames, GetWordsTellFrames};
ghost use Rattle.log_laws.specs.LoggedWrites.{LoggedSlotsStand, LoggedWritesAreKept, LogsBeginOnce};
ghost use Rattle.log_laws.specs.OneReader.{LoneReadingsAreComplete, ReadingsAreApart, StoppedReadingsAreComplete};
ghost use Rattle.log_laws.specs.UnlawfulReadings.{AutomaticGetTakesAll, LogBeginsAllSet, LogBeginsArmed};
ghost use Rattle.log_laws.specs.UnlawfulReadings.{LogBeginsClean, ManualGetTakesNone, NextGetReadsIt, RaceIsLawful};
ghost use Rattle.log_laws.specs.UnlawfulReadings.{TakenIsNotReadAgain, UnwrittenIsNotRead, WrittenIsNotLeftOut};

use flat_laws::writes_are_kept;

/// A law about the readings of dirty logs, over all histories. In a lawful history a reading holds
/// each frame for which its line asks that was dirty as the line began to read, unless a line was
/// under way then that writes the frame, and the guest wasn't stopped (`complete`). It holds no
/// other frame than one that was written, by a line that was under way since the reading began that
/// took the frame out last, or one of a log that began with each page dirty; and only frames of the
/// slot for which the line asks (`caused`). In any history a frame that is written while the writes
/// of its slot are logged is dirty (`dirty`), until an event makes it clean (`clean`). In a lawful
/// one each dirty frame is in a slot whose writes are logged (`armed`). A reading that takes no
/// frame out changes no fact (`shown`), and one that does makes just its frames clean, and to be
/// copied while a migration goes on (`taken`) (api.rst, KVM_GET_DIRTY_LOG, KVM_CLEAR_DIRTY_LOG).
/// Nothing more is asked of a reading: any frames that rise, for which the line asks, that have a
/// cause, and of which none is left out that must not be, may be read (`such`), by a line of a
/// migration too (`next`). An event that arms a log does so for its slot alone (`arms`). And where
/// one actor alone reads logs, as the manager does, no log begins to be read before its reading has
/// ended (`apart`); so each of its readings is complete (`lone`), and, where the guest was stopped
/// as it began, leaves out no dirty frame, whoever writes it (`stopped`).
pub fn readings_tell_what_was_written()
    ensures complete { ReadingsAreComplete }
    ensures caused { ReadingsAreCaused }
    ensures dirty { WrittenStaysDirty }
    ensures clean { CleanIsNotDirty }
    ensures armed { PendingIsArmed }
    ensures shown { ShownTakesNothing }
    ensures taken { HarvestedTakesItsFrames }
    ensures such { SuchMayBeRead }
    ensures arms { ArmingArms }
    ensures apart { ReadingsAreApart }
    ensures lone { LoneReadingsAreComplete }
    ensures stopped { StoppedReadingsAreComplete }
    ensures next { SuchMayBeReadNext }
{
    writes_are_kept();
}

/// A law about what is written while writes of its slot are logged, over lawful histories in which
/// one actor alone manages the guest, as the manager does. Such a frame is dirty from the write on,
/// unless a reading takes it out of the log, or a line takes the slot's dirty log
/// away (`kept`). No other line changes a slot whose writes are logged, nor sets one that has a frame
/// of it (`stand`), and a log begins only where its slot's writes aren't logged (`once`).
pub fn logged_writes_are_kept()
    ensures kept { LoggedWritesAreKept }
    ensures stand { LoggedSlotsStand }
    ensures once { LogsBeginOnce }
{}

/// A law about the words of 64 bits that a line answers which reads a log. A get's have a bit for
/// each page of the slot (`get`), and a clear's one for each of its pages (`clear`). Each is set
/// exactly where the page's guest frame is among those that were read; no bit past them is set, and
/// there are no more words than these bits need.
/// The pages of a clear are a bad range just where they aren't whole words of the log of a slot
/// with so many pages (`ranges`).
pub fn log_words_tell_frames()
    ensures get { GetWordsTellFrames }
    ensures clear { ClearWordsTellFrames }
    ensures ranges { BadRangesAreTold }
{}

/// Closed traces of lines that run alone, with the bytes that they print: of a get that reads two
/// frames, and one that reads none then (`get`); of an access that only reads (`read`); of two
/// words (`words`); of clears of pages that aren't whole words (`ranges`), and of the slot's last
/// page and of no page (`ends`); of a manual log (`manual`), and of one that begins with each page
/// dirty (`all_set`); and of lines that are refused (`refusals`).
pub fn log_lines_print()
    ensures get { GetPrints }
    ensures read { ReadPrints }
    ensures words { WordsPrint }
    ensures ranges { RangesPrint }
    ensures ends { EndsPrint }
    ensures manual { ManualPrints }
    ensures all_set { AllSetPrints }
    ensures refusals { RefusalsPrint }
{}

/// More closed traces: of a clear that names a page of its second word alone (`words`); of
/// pages that are whole words, and ones that aren't (`whole`); of a clear that is refused for
/// more than one reason (`first`); and of a slot that isn't the first, with the frame that was
/// written in it (`other`), and with all its pages, where its log begins so (`each`). And which
/// number of a header is which mode (`modes`).
pub fn more_log_lines_print()
    ensures words { SecondWordPrints }
    ensures whole { WholeWordsPrint }
    ensures first { FirstRefusalPrints }
    ensures other { OtherSlotPrints }
    ensures each { EachPagePrints }
    ensures modes { ModesTell }
{}

/// A law about closed histories, mostly ones that are not lawful. A get doesn't leave out a frame
/// whose write was answered before it (`left_out`), nor read one that nobody wrote (`unwritten`),
/// or that nobody wrote since the last get took it out (`again`). A get of a manual log takes no
/// frame out of it (`manual`), and one of an automatic log leaves none there (`automatic`). A log
/// doesn't begin before writes are logged (`armed`), nor with no page dirty where each is to be
/// (`all_set`), nor with each one where none is to be (`clean`). Where two processors write one
/// frame, a get may leave it out after one of them is answered, while the other's line is under way
/// (`race`); then the next get after that line's answer must read it (`next`).
pub fn unlawful_readings_are_refused()
    ensures left_out { WrittenIsNotLeftOut }
    ensures unwritten { UnwrittenIsNotRead }
    ensures again { TakenIsNotReadAgain }
    ensures manual { ManualGetTakesNone }
    ensures automatic { AutomaticGetTakesAll }
    ensures armed { LogBeginsArmed }
    ensures all_set { LogBeginsAllSet }
    ensures clean { LogBeginsClean }
    ensures race { RaceIsLawful }
    ensures next { NextGetReadsIt }
{}
