//! Entries, host words, flags and the map of words, by their numbers.

use spte_words::{Area, HostWord, SlotFlags, Spte, SpteKind, WordMap};

// Whether the numbers of each pair are the same.
fn are_same(pairs: &[(u64, u64)]) -> bool {
    for (found, wanted) in pairs {
        if found != wanted {
            return false;
        }
    }
    true
}

/// Whether entries are these words, of these kinds by level, with these children.
#[tactic(auto, using(spte_words::proofs::ReadsEntries::leaf_frame))]
pub fn entries_are_these() -> bool {
    let large = Spte::from_word(0x600000000200887);
    let child = Spte::leaf(3, 0x40000, false, true, true).child(3, 2);
    let last = Spte::leaf(2, 512, true, true, true).child(2, 511);
    let leaf = Spte::leaf(1, 1, true, true, true);
    let words = [
        (leaf.word(), 0x600000000001807),
        (leaf.without_write().word(), 0x600000000001805),
        (Spte::table(3).word(), 0x3807),
        (Spte::absent().word(), 0),
        (Spte::frozen().word(), 0x5a0),
        (child.word(), 0x600000040400885),
        (last.word(), 0x6000000003ff807),
        (large.frame(), 512),
        (Spte::level_span(3), 262_144),
    ];
    let is_leaf = large.kind(2) == SpteKind::Leaf;
    let is_writable = large.is_writable() && large.is_host_writable() && large.is_mmu_writable();
    let is_table = Spte::from_word(0x3807).kind(4) == SpteKind::Table(3);
    let is_small = Spte::from_word(0x3807).kind(1) == SpteKind::Leaf;
    let is_frozen = Spte::from_word(0x5a0).kind(2) == SpteKind::Frozen;
    let is_absent = Spte::from_word(0).kind(2) == SpteKind::Absent;
    let is_kind = is_table && is_small && is_frozen && is_absent;
    are_same(&words)
        && leaf.without_write().with_write() == leaf
        && is_leaf
        && is_writable
        && is_kind
}

/// Whether these are words below entries: rows of an entry, its level, a place, and the word that stands there in a table that is linked in
/// its place: of a large leaf the child, and of any other entry nothing.
pub fn words_below() -> bool {
    let rows = [
        (0x600000000200887, 2, 0, 0x600000000200807),
        (0x600000000200887, 2, 1, 0x600000000201807),
        (0x600000000200887, 2, 511, 0x6000000003ff807),
        (0x400885, 2, 5, 0x405805),
        (0x200000000400885, 2, 5, 0x200000000405805),
        (0x600000040000885, 3, 0, 0x600000040000885),
        (0x600000040000885, 3, 2, 0x600000040400885),
        (0x600000040000885, 3, 511, 0x60000007fe00885),
        (0x600000000001807, 1, 3, 0),
        (0x3807, 2, 3, 0),
        (0x600000040000887, 4, 3, 0),
        (0x5a0, 2, 3, 0),
        (0, 3, 511, 0),
    ];
    for (entry, level, place, wanted) in rows {
        if place < 512 && Spte::from_word(entry).below(level, place).word() != wanted {
            return false;
        }
    }
    true
}

/// Whether host words and flags are these.
pub fn host_words_and_flags() -> bool {
    let host = HostWord::new(5, true, true, 1);
    let huge = HostWord::from_word(0x20000d);
    let numbers = [
        (host.word(), 4096 * 5 + 7),
        (u64::from(huge.level()), 3),
        (huge.frame(), 512),
    ];
    let is_read_only = huge.is_present() && !huge.is_writable();
    let flags = SlotFlags::new(true, false, true);
    let is_so = flags.is_live() && !flags.is_read_only() && flags.is_logged();
    let are_flags = flags.word() == 5 && is_so && SlotFlags::from_word(5) == flags;
    are_same(&numbers) && is_read_only && HostWord::from_word(20487) == host && are_flags
}

/// Whether words stand at these places.
#[tactic(auto, unfolding(spte_words::specs::Areas::total))]
pub fn map_places() -> bool {
    let map = WordMap::new(1024, 1040, 1, 64, 5);
    let places = [
        (u64::from(map.word_of_root(0)), 0),
        (u64::from(map.word_of_lock(0)), 6),
        (u64::from(map.word_of_state(4)), 12),
        (u64::from(map.word_of_host(0)), 47),
        (u64::from(map.word_of_content(0)), 33903),
        (u64::from(map.total()), 34943),
        (u64::from(map.pool_index(2, 3)), 1027),
        (u64::from(map.content_index(7, 0)), 7),
    ];
    let is_state = map.area_of(12) == (Area::State, 4);
    let is_pool = map.area_of(33902) == (Area::Pool, 32767);
    are_same(&places) && is_state && is_pool
}
