ghost use Rattle.mmu_core.specs.invariant.Grace.{SectionsBeginEmpty, WatchedWasOutside};

/// What a grace period is for. Each other actor that a watch has passed was
/// seen outside by a look of this very watch; and whoever was outside at some
/// moment, and is in a section or in the guest later, held nothing of tables and
/// slot sets at a moment in between. So what such an actor holds after a watch
/// that is done was loaded since the watch began, and not before. (Nothing is said
/// here of what an actor outside holds under the MMU lock.)
pub fn who_was_seen_outside_holds_nothing_older()
    ensures outside { WatchedWasOutside }
    ensures empty { SectionsBeginEmpty }
{}
