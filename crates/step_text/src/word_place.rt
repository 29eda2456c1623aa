//! Where a word stands, and how it is named.
ghost use Rattle.std.specs.Prelude.{◌≡◌, ◌<◌, ◌++◌, OnOk, codes, string_bytes};
ghost use Rattle.core_views.specs.Sizes.{actor_at};
ghost use Rattle.core_views.specs.Text.{actor_name};
ghost use Rattle.spte_words.specs.Areas.{IsWordMap, place, size_of, total};
ghost use Rattle.step_text.specs.Names.{area_name, bracketed, paged_text, words_text};

use crate::span::Span;
use core_views::{NoMemory, Sizes};
use spte_words::{Area, ENTRIES, WordMap};

/// The place of a word in the memory of a machine.
#[derive(Clone, Copy, Drop)]
pub struct WordPlace {
    /// The area that it is in.
    pub area: Area,
    /// Which word of the area it is, from 0.
    pub index: u32,
}

/// The place of this word, one of those below the total. It takes constant time.
#[tactic(auto, using(spte_words::proofs::Places::place_at))]
pub fn place_of(map: &WordMap, word: u32) -> WordPlace
    requires map { IsWordMap map.now }
    requires within { word < total map.now }
    ensures at { place map.now result.area result.index ≡ word }
    ensures within { result.index < size_of map.now result.area }
{
    let (area, index) = map.area_of(word);
    WordPlace {
        area,
        index: index as u32,
    }
}

/// The name of an area.
fn area_name(area: Area) -> &'static str
    ensures { result.now ≡ area_name area }
{
    match area {
        Area::Root => "root",
        Area::Slots => "slots",
        Area::Seq => "seq",
        Area::Count => "count",
        Area::RangeStart => "rangestart",
        Area::RangeEnd => "rangeend",
        Area::Lock => "lock",
        Area::Pause => "pause",
        Area::State => "state",
        Area::PoolMap => "poolmap",
        Area::FrameMap => "framemap",
        Area::Log => "log",
        Area::Host => "host",
        Area::Role => "role",
        Area::Pool => "pool",
        Area::Content => "content",
    }
}

/// Puts the name of a state word after a text, by its actor.
fn push_state(text: &mut String, sizes: &Sizes, index: u64) -> Result<(), NoMemory>
    ensures { OnOk result (string_bytes text.new ≡ string_bytes text.old ++ (codes "state" ++ bracketed (actor_name (actor_at sizes.now index)))) }
{
    if index < sizes.vcpus {
        write!(text, "state[v{index}]")?;
        return Ok(());
    }
    let host = index - sizes.vcpus;
    if host < sizes.hosts {
        write!(text, "state[h{host}]")?;
        return Ok(());
    }
    if host == sizes.hosts {
        write!(text, "state[vm]")?;
        return Ok(());
    }
    let worker = host - sizes.hosts - 1;
    write!(text, "state[w{worker}]")?;
    Ok(())
}

/// Puts the name of words of pages of so many words after a text.
fn push_paged(
    text: &mut String,
    area: &str,
    words: u64,
    index: u32,
    count: u32,
) -> Result<(), NoMemory>
    requires { 0 < words }
    ensures { OnOk result (string_bytes text.new ≡ string_bytes text.old ++ (area.now ++ paged_text words index count)) }
{
    let page = index as u64 / words;
    let span = Span {
        joint: "..",
        first: index as u64 % words,
        count,
    };
    write!(text, "{area}[{page}][{span}]")?;
    Ok(())
}

/// Puts the name of so many words after a text, of which the first is at this place, and
/// which follow one another.
#[tactic(auto, unfolding(crate::specs::Names::words_text))]
pub fn push_words(
    text: &mut String,
    sizes: &Sizes,
    place: WordPlace,
    count: u32,
) -> Result<(), NoMemory>
    ensures { OnOk result (string_bytes text.new ≡ string_bytes text.old ++ words_text sizes.now place count) }
{
    let name = area_name(place.area);
    match place.area {
        Area::State => push_state(text, sizes, place.index as u64)?,
        Area::PoolMap | Area::FrameMap | Area::Log | Area::Host | Area::Role => {
            let span = Span {
                joint: "..",
                first: place.index as u64,
                count,
            };
            write!(text, "{name}[{span}]")?
        }
        Area::Pool => push_paged(text, name, ENTRIES, place.index, count)?,
        Area::Content => push_paged(text, name, sizes.words.max(1), place.index, count)?,
        _ => write!(text, "{name}")?,
    }
    Ok(())
}
