//! The frames of the host: what an actor holds of them (Linux's page_migration.rst).
ghost use Rattle.std.specs.Prelude.{◌≡◌, ◌<◌, ◌+◌, ◌*◌, ◌^◌, Some, is_some};
ghost use Rattle.core_views.specs.declared.topics.OwnedFrame.{OwnedFrame};
ghost use Rattle.part_steps.specs.FrameTopics.{frame_after, frame_claimed, frame_given, frame_owned, word_copied, word_held, word_stored, words_moved};
ghost use Rattle.part_steps.specs.PageTopics.{is_won, tried};

use crate::topics::{is_won, tried_bit};
use core_views::{Frames, MapClaim, OwnedFrame};

/// The frame that is owned, and 0 where none is.
pub fn frame_owned(owned: Option<OwnedFrame>) -> u64
    ensures { result ≡ frame_owned owned }
{
    match owned {
        Some(owned) => owned.frame,
        None => 0,
    }
}

/// How many of its words are filled with those of a page.
pub fn words_moved(owned: Option<OwnedFrame>) -> u64
    ensures { result ≡ words_moved owned }
{
    match owned {
        Some(owned) => owned.filled,
        None => 0,
    }
}

/// The word that was copied for the next one of them, and 0 where none was.
pub fn word_held(owned: Option<OwnedFrame>) -> u64
    ensures { result ≡ word_held owned }
{
    match owned {
        Some(
            OwnedFrame {
                copied: Some(word),
                ..
            },
        ) => word,
        _ => 0,
    }
}

// A claim has tried for a frame, and found this word of the map.
pub(crate) fn claim_frame(claim: &mut MapClaim, found: u64) -> Option<OwnedFrame>
    requires seen { 0 < claim.old.seen }
    requires at { claim.old.at < 2 ^ 32 }
    ensures owned { result ≡ frame_claimed claim.old found }
    ensures claim { claim.new ≡ tried claim.old found }
{
    if is_won(claim, found) {
        let frame = 64 * claim.at + tried_bit(claim) as u64;
        *claim = MapClaim { at: 0, seen: 0 };
        Some(OwnedFrame {
            frame,
            filled: 0,
            copied: None,
        })
    } else {
        claim.seen = found;
        None
    }
}

// A word of the page was copied.
pub(crate) fn copy_word(owned: &mut Option<OwnedFrame>, found: u64)
    ensures { owned.new ≡ word_copied owned.old found }
{
    if let Some(frame) = owned {
        frame.copied = Some(found);
    }
}

// It was stored in the frame.
pub(crate) fn store_word(owned: &mut Option<OwnedFrame>)
    requires { words_moved owned.old < 2 ^ 32 }
    ensures { owned.new ≡ word_stored owned.old }
{
    if let Some(frame) = owned {
        frame.filled += 1;
        frame.copied = None;
    }
}

// The page was to be moved out of this frame into the one that is owned.
pub(crate) fn move_frame(won: bool, frame: u64, owned: &mut Option<OwnedFrame>)
    ensures { owned.new ≡ frame_after won frame owned.old }
{
    if won && owned.is_some() {
        *owned = Some(OwnedFrame {
            frame,
            filled: 0,
            copied: None,
        });
    }
}

// The frame was given back.
pub(crate) fn give_frame(frames: &mut Frames)
    ensures { frames.new ≡ frame_given frames.old }
{
    frames.claim.seen = 0;
    frames.owned = None;
}
