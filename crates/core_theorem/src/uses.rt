//! The uses of pages and frames in every run.
ghost use Rattle.core_theorem.specs.Frames.{CopiedWordsAreThePages, EachFrameHasOneUse, FramesAreReusedAlone, LoadedLeavesAreKept};
ghost use Rattle.core_theorem.specs.Frames.{WatchedHoldNoOldFrame};
ghost use Rattle.core_theorem.specs.Holdings.{PagesAreReusedAlone, ReturnedSetsAreCleared};
ghost use Rattle.core_theorem.specs.Pages.{EachPageHasOneUse};
ghost use Rattle.core_theorem.specs.Walks.{WalksHoldTables};

/// Each page of the pool, and each frame of the machine, has one use in every run, and none is used
/// anew while anybody holds it (tdp_mmu.c; page_migration.rst).
///
/// `pages`: each page is exactly one of free, the root, owned by one actor, linked by one entry of a
/// table, the published slot set, an old slot set that is retired by one actor, and none of the pool;
/// the tables, the root and what is linked below it, are each at a level and span of guest frames of
/// its own. `walks`: in each such account of the pages, each table that a walk has gone through, and
/// the one that it has come to, is at its level and for the span of guest frames that the walk is in,
/// and each leaf below it, as each one below the root, says of every guest frame that it is over what
/// slots and host say. `reuse`: a page that is taken from the pool or given back to it nobody else
/// holds. `cleared`: where an old slot set is given back to the pool, its role word is 0. `frames`:
/// each frame is exactly one of free, that of one host page, owned by one actor, and none of the
/// machine. `copied`: while its actor's invalidation is open, each word that a move has copied is the
/// page's. `loaded`: the frame to which a leaf leads that an actor's walk holds, in its section or stay
/// or under the lock, is a page's, or another actor owns it that hasn't watched this one since a page
/// was moved out of it. `frame_reuse`: a frame that is claimed or given back nobody else owns or has
/// looked at in its section, no walk of another actor holds a leaf that leads there, no translation
/// that may be used is to it, and no host page names it. `moved`: whom a watch has passed since a page
/// was moved out of a frame has looked at no page there, and its walk holds no such leaf.
pub fn every_run_pages()
    ensures pages { EachPageHasOneUse }
    ensures walks { WalksHoldTables }
    ensures reuse { PagesAreReusedAlone }
    ensures cleared { ReturnedSetsAreCleared }
    ensures frames { EachFrameHasOneUse }
    ensures copied { CopiedWordsAreThePages }
    ensures loaded { LoadedLeavesAreKept }
    ensures frame_reuse { FramesAreReusedAlone }
    ensures moved { WatchedHoldNoOldFrame }
{}
