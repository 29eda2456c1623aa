//! The words of guest memory that aren't 0.
ghost use Rattle.std.specs.Prelude.{◌≡◌, ◌+◌, ◌<◌, ◌≤◌, ◌++◌, OnOk, codes, filter, string_bytes};
ghost use Rattle.core_views.specs.Migrations.{image_words, page_words, slot_words};
ghost use Rattle.core_views.specs.Text.{image_text, image_word_text};
ghost use Rattle.flat_model.specs.Copying.{is_printed};
ghost use Rattle.closing_text.specs.MemoryText.{AreAllWords, HaveHostPages, content_in, frame_in, memory_in, memory_text};

use core_views::{ImageWord, NoMemory, SLOTS, Sizes, Slot};
use hands::SlotSet;
use part_steps::map_of;
use spte_words::{Area, HostWord};

/// Puts the line `memory` after a text: each word of each slot that isn't 0, by rising ID, page
/// and word, as `ID:PAGE:WORD=X`.
pub fn push_memory(
    text: &mut String,
    sizes: &Sizes,
    words: &[u64],
    slots: &SlotSet,
) -> Result<(), NoMemory>
    requires words { AreAllWords sizes.now words.now }
    requires slots { HaveHostPages sizes.now slots.now }
    ensures { OnOk result (string_bytes text.new
        ≡ string_bytes text.old ++ memory_text (image_words sizes.now.words (memory_in sizes.now words.now) slots.now)) }
{
    write!(text, "memory")?;
    for id in 0..SLOTS {
        if let Some(found) = slots.get(id) {
            push_slot(text, sizes, words, id, &found.slot)?;
        }
    }
    write!(text, "\n")?;
    Ok(())
}

// Puts the words of the slot that aren't 0 after a text.
fn push_slot(
    text: &mut String,
    sizes: &Sizes,
    words: &[u64],
    id: u64,
    slot: &Slot,
) -> Result<(), NoMemory>
    requires words { AreAllWords sizes.now words.now }
    requires pages { slot.now.host + slot.now.pages ≤ sizes.now.pages }
    ensures { OnOk result (string_bytes text.new ≡ string_bytes text.old
        ++ image_text (filter is_printed (slot_words sizes.now.words (memory_in sizes.now words.now) id slot.now))) }
{
    for page in 0..slot.pages {
        push_page(text, sizes, words, (id, page), slot.host + page)?;
    }
    Ok(())
}

// Puts the words of the page of a slot that aren't 0 after a text.
fn push_page(
    text: &mut String,
    sizes: &Sizes,
    words: &[u64],
    place: (u64, u64),
    host_page: u64,
) -> Result<(), NoMemory>
    requires words { AreAllWords sizes.now words.now }
    requires page { host_page < sizes.now.pages }
    ensures { OnOk result (string_bytes text.new ≡ string_bytes text.old
        ++ image_text (filter is_printed (page_words sizes.now.words place.0 place.1 (memory_in sizes.now words.now host_page)))) }
{
    let (id, page) = place;
    let frame = frame_of(sizes, words, host_page);
    for word in 0..sizes.words as u8 {
        let value = content(sizes, words, frame, word);
        if value != 0 {
            push_word(
                text,
                &ImageWord {
                    id,
                    page,
                    word,
                    value,
                },
            )?;
        }
    }
    Ok(())
}

// The frame that the page's word names.
fn frame_of(sizes: &Sizes, words: &[u64], host_page: u64) -> u64
    requires words { AreAllWords sizes.now words.now }
    requires page { host_page < sizes.now.pages }
    ensures is { result ≡ frame_in sizes.now words.now host_page }
    ensures low { result < sizes.now.frames }
{
    let at = map_of(sizes).word_of(Area::Host, host_page);
    HostWord::from_word(words[at as usize]).frame()
}

// What a word of a frame holds.
fn content(sizes: &Sizes, words: &[u64], frame: u64, word: u8) -> u64
    requires words { AreAllWords sizes.now words.now }
    requires frame { frame < sizes.now.frames }
    requires word { word < sizes.now.words }
    ensures { result ≡ content_in sizes.now words.now frame word }
{
    let map = map_of(sizes);
    let at = map.word_of_content(map.content_index(frame, word));
    words[at as usize]
}

// Puts a word after a text, and a space before it.
fn push_word(text: &mut String, word: &ImageWord) -> Result<(), NoMemory>
    ensures { OnOk result (string_bytes text.new ≡ string_bytes text.old ++ (codes " " ++ image_word_text word.now)) }
{
    write!(text, " {word}")?;
    Ok(())
}
