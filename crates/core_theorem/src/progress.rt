//! Delays, and how many steps lines make, in every run.
ghost use Rattle.core_theorem.specs.Delays.{BetweenLinesSawNothing, DelaysHaveCauses, FaultsHaveCauses, StartsSawNothing};
ghost use Rattle.core_theorem.specs.Delays.{StarvedLinesScanned, WaitsHaveCauses, WaitsInRunsSeeAnother};
ghost use Rattle.core_theorem.specs.Turns.{AllStepsAreFew, CountsAreFew, LinesAreOpen, LinesMakeFewSteps, StepsAreFew};

/// What stands in the way of a line, in every run, and how many steps it makes for each delay and once
/// more. It says nothing of who comes to make a step, or when.
///
/// `begins_anew`, `waits`, `starved`: what stood in the way of a fault, and of each step that waits,
/// whoever makes it, was another actor's, an open invalidation, or that each word of the pool's map was
/// found with no page free since the line began; `delays`: so it is with each step that is counted as a
/// delay of its line, since that line began, or this step is one of the stay in the guest after a fault
/// that installed an entry, and finds no translation: since that fault began another actor took an
/// entry of the guest frame away. `sees`: a step that waits has seen this: a writer in the lock's word,
/// or that the lock isn't free, the map's word without the bit of the page or frame that it tried, how
/// many invalidations are open, the state word of another actor in a section, or that of a virtual
/// processor in the guest that has yet to flush. `at_start`, `between_lines`: what a step waits for was
/// seen since any moment at which the actor had seen nothing, as at the start and, of an actor that has
/// a line left, between its lines.
///
/// `counts`, `line_turns`: a line makes no more steps than its command allows (`most_steps`: an access
/// 8,192, one for each pool page and one for each frame; a slot line 1,024 and one for each word of the
/// pool's map, and more where it sweeps; a host line 1,024 and one for each word of the map of frames)
/// up to the end of its first delay, as many from there to the end of the next, and as many after its
/// last. `turns`: so all lines together make at most as many for each of their delays and for each
/// line. `all_turns`, `open_lines`: no line makes more than `most_of_all` says, and one that changes a
/// run of host pages no more than `more_of_runs` besides; and there are no more lines than have no
/// answer yet.
pub fn every_run_progress()
    ensures begins_anew { FaultsHaveCauses }
    ensures waits { WaitsHaveCauses }
    ensures starved { StarvedLinesScanned }
    ensures delays { DelaysHaveCauses }
    ensures sees { WaitsInRunsSeeAnother }
    ensures at_start { StartsSawNothing }
    ensures between_lines { BetweenLinesSawNothing }
    ensures counts { CountsAreFew }
    ensures line_turns { LinesMakeFewSteps }
    ensures turns { StepsAreFew }
    ensures all_turns { AllStepsAreFew }
    ensures open_lines { LinesAreOpen }
{}
