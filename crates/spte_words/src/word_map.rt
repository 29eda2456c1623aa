ghost use Rattle.std.specs.Prelude.{◌≡◌, ◌<◌, ◌≤◌, ◌^◌};
ghost use Rattle.spte_words.specs.Areas.{IsWordMap, size_of, place, total, content_index, pool_index, words_of_bits};

use crate::Area;

/// How many words a page of the pool has, and so how many entries a table.
pub const ENTRIES: u64 = 512;

/// The sizes of a machine, from which the place of each word follows.
#[derive(Clone, Copy, Drop)]
pub struct WordMap {
    /// Host pages, at most 1,048,576.
    pub pages: u64,
    /// Frames, at most 2,097,152.
    pub frames: u64,
    /// Content words of a frame, 1 to 8; of all frames at most 8,388,608.
    pub words: u64,
    /// Pool pages, at most 16,384.
    pub pool: u64,
    /// Actors, at most 25.
    pub actors: u64,
}

// How many words of 64 bits have so many bits.
fn words_of_bits(bits: u64) -> u64
    requires { bits < 2 ^ 32 }
    ensures { result ≡ words_of_bits bits }
{
    bits.div_ceil(64)
}

#[tactic(auto, unfolding(crate::specs::Areas::place, crate::specs::Areas::total))]
impl WordMap {
    /// The map of a machine of these sizes.
    pub fn new(pages: u64, frames: u64, words: u64, pool: u64, actors: u64) -> WordMap
        ensures { result ≡ record { pages = pages; frames = frames; words = words; pool = pool; actors = actors } }
    {
        WordMap {
            pages,
            frames,
            words,
            pool,
            actors,
        }
    }

    /// How many words the area has.
    pub fn size_of(&self, area: Area) -> u32
        requires { IsWordMap self.now }
        ensures { result ≡ size_of self.now area }
    {
        let size = match area {
            Area::Root | Area::Slots | Area::Seq | Area::Count => 1,
            Area::RangeStart | Area::RangeEnd | Area::Lock | Area::Pause => 1,
            Area::State => self.actors,
            Area::PoolMap => words_of_bits(self.pool),
            Area::FrameMap => words_of_bits(self.frames),
            Area::Log => words_of_bits(self.pages),
            Area::Host => self.pages,
            Area::Role => self.pool,
            Area::Pool => ENTRIES * self.pool,
            Area::Content => self.words * self.frames,
        };
        size as u32
    }

    /// How many words there are.
    pub fn total(&self) -> u32
        requires { IsWordMap self.now }
        ensures { result ≡ total self.now }
    {
        (self.content() + self.words * self.frames) as u32
    }

    // Where the areas after State begin.

    fn pool_map(&self) -> u64
        requires { IsWordMap self.now }
        ensures { result ≡ place self.now Area.PoolMap 0 }
    {
        8 + self.actors
    }

    fn frame_map(&self) -> u64
        requires { IsWordMap self.now }
        ensures { result ≡ place self.now Area.FrameMap 0 }
    {
        self.pool_map() + words_of_bits(self.pool)
    }

    fn log(&self) -> u64
        requires { IsWordMap self.now }
        ensures { result ≡ place self.now Area.Log 0 }
    {
        self.frame_map() + words_of_bits(self.frames)
    }

    fn host(&self) -> u64
        requires { IsWordMap self.now }
        ensures { result ≡ place self.now Area.Host 0 }
    {
        self.log() + words_of_bits(self.pages)
    }

    fn role(&self) -> u64
        requires { IsWordMap self.now }
        ensures { result ≡ place self.now Area.Role 0 }
    {
        self.host() + self.pages
    }

    fn pool_pages(&self) -> u64
        requires { IsWordMap self.now }
        ensures { result ≡ place self.now Area.Pool 0 }
    {
        self.role() + self.pool
    }

    fn content(&self) -> u64
        requires { IsWordMap self.now }
        ensures { result ≡ place self.now Area.Content 0 }
    {
        self.pool_pages() + ENTRIES * self.pool
    }

    // Where the area begins.
    #[inline(always)]
    fn begin_of(&self, area: Area) -> u64
        requires { IsWordMap self.now }
        ensures { result ≡ place self.now area 0 }
    {
        match area {
            Area::Root => 0,
            Area::Slots => 1,
            Area::Seq => 2,
            Area::Count => 3,
            Area::RangeStart => 4,
            Area::RangeEnd => 5,
            Area::Lock => 6,
            Area::Pause => 7,
            Area::State => 8,
            Area::PoolMap => self.pool_map(),
            Area::FrameMap => self.frame_map(),
            Area::Log => self.log(),
            Area::Host => self.host(),
            Area::Role => self.role(),
            Area::Pool => self.pool_pages(),
            Area::Content => self.content(),
        }
    }

    /// Where word `i` of the area is.
    #[inline(always)]
    #[tactic(auto, using(crate::proofs::Places::place_at))]
    pub fn word_of(&self, area: Area, i: u64) -> u32
        requires map { IsWordMap self.now }
        requires within { i < size_of self.now area }
        ensures { result ≡ place self.now area i }
    {
        (self.begin_of(area) + i) as u32
    }

    /// Where the root word is.
    pub fn word_of_root(&self, i: u64) -> u32
        requires map { IsWordMap self.now }
        requires within { i < size_of self.now Area.Root }
        ensures { result ≡ place self.now Area.Root i }
    {
        self.word_of(Area::Root, i)
    }

    /// Where the word of the published memory slots is.
    pub fn word_of_slots(&self, i: u64) -> u32
        requires map { IsWordMap self.now }
        requires within { i < size_of self.now Area.Slots }
        ensures { result ≡ place self.now Area.Slots i }
    {
        self.word_of(Area::Slots, i)
    }

    /// Where the sequence number of invalidations is.
    pub fn word_of_seq(&self, i: u64) -> u32
        requires map { IsWordMap self.now }
        requires within { i < size_of self.now Area.Seq }
        ensures { result ≡ place self.now Area.Seq i }
    {
        self.word_of(Area::Seq, i)
    }

    /// Where the number of open invalidations is.
    pub fn word_of_count(&self, i: u64) -> u32
        requires map { IsWordMap self.now }
        requires within { i < size_of self.now Area.Count }
        ensures { result ≡ place self.now Area.Count i }
    {
        self.word_of(Area::Count, i)
    }

    /// Where the first gfn of the open invalidations' range is.
    pub fn word_of_range_start(&self, i: u64) -> u32
        requires map { IsWordMap self.now }
        requires within { i < size_of self.now Area.RangeStart }
        ensures { result ≡ place self.now Area.RangeStart i }
    {
        self.word_of(Area::RangeStart, i)
    }

    /// Where the gfn after the last of that range is.
    pub fn word_of_range_end(&self, i: u64) -> u32
        requires map { IsWordMap self.now }
        requires within { i < size_of self.now Area.RangeEnd }
        ensures { result ≡ place self.now Area.RangeEnd i }
    {
        self.word_of(Area::RangeEnd, i)
    }

    /// Where the MMU lock is.
    pub fn word_of_lock(&self, i: u64) -> u32
        requires map { IsWordMap self.now }
        requires within { i < size_of self.now Area.Lock }
        ensures { result ≡ place self.now Area.Lock i }
    {
        self.word_of(Area::Lock, i)
    }

    /// Where the pause word is.
    pub fn word_of_pause(&self, i: u64) -> u32
        requires map { IsWordMap self.now }
        requires within { i < size_of self.now Area.Pause }
        ensures { result ≡ place self.now Area.Pause i }
    {
        self.word_of(Area::Pause, i)
    }

    /// Where the state word of actor `i` is.
    pub fn word_of_state(&self, i: u64) -> u32
        requires map { IsWordMap self.now }
        requires within { i < size_of self.now Area.State }
        ensures { result ≡ place self.now Area.State i }
    {
        self.word_of(Area::State, i)
    }

    /// Where the word of pool pages `64 * i` to `64 * i + 63` is.
    pub fn word_of_pool_map(&self, i: u64) -> u32
        requires map { IsWordMap self.now }
        requires within { i < size_of self.now Area.PoolMap }
        ensures { result ≡ place self.now Area.PoolMap i }
    {
        self.word_of(Area::PoolMap, i)
    }

    /// Where the word of frames `64 * i` to `64 * i + 63` is.
    pub fn word_of_frame_map(&self, i: u64) -> u32
        requires map { IsWordMap self.now }
        requires within { i < size_of self.now Area.FrameMap }
        ensures { result ≡ place self.now Area.FrameMap i }
    {
        self.word_of(Area::FrameMap, i)
    }

    /// Where the dirty log of host pages `64 * i` to `64 * i + 63` is.
    pub fn word_of_log(&self, i: u64) -> u32
        requires map { IsWordMap self.now }
        requires within { i < size_of self.now Area.Log }
        ensures { result ≡ place self.now Area.Log i }
    {
        self.word_of(Area::Log, i)
    }

    /// Where the host word of host page `i` is.
    pub fn word_of_host(&self, i: u64) -> u32
        requires map { IsWordMap self.now }
        requires within { i < size_of self.now Area.Host }
        ensures { result ≡ place self.now Area.Host i }
    {
        self.word_of(Area::Host, i)
    }

    /// Where the role of pool page `i` is.
    pub fn word_of_role(&self, i: u64) -> u32
        requires map { IsWordMap self.now }
        requires within { i < size_of self.now Area.Role }
        ensures { result ≡ place self.now Area.Role i }
    {
        self.word_of(Area::Role, i)
    }

    /// Where word `i` of the pool pages is (`pool_index` gives it).
    pub fn word_of_pool(&self, i: u64) -> u32
        requires map { IsWordMap self.now }
        requires within { i < size_of self.now Area.Pool }
        ensures { result ≡ place self.now Area.Pool i }
    {
        self.word_of(Area::Pool, i)
    }

    /// Where word `i` of the frames is (`content_index` gives it).
    pub fn word_of_content(&self, i: u64) -> u32
        requires map { IsWordMap self.now }
        requires within { i < size_of self.now Area.Content }
        ensures { result ≡ place self.now Area.Content i }
    {
        self.word_of(Area::Content, i)
    }

    /// Which word of the area `Content` is word `word` of the frame.
    #[tactic(auto, unfolding(crate::specs::Areas::content_index))]
    pub fn content_index(&self, frame: u64, word: u8) -> u64
        requires map { IsWordMap self.now }
        requires frame_in { frame < self.now.frames }
        requires word_in { word < self.now.words }
        ensures index { result ≡ content_index self.now frame word }
        ensures within { result < size_of self.now Area.Content }
    {
        self.words * frame + word as u64
    }

    /// Which word of the area `Pool` is word `i` of the pool page.
    #[tactic(auto, unfolding(crate::specs::Areas::pool_index))]
    pub fn pool_index(&self, page: u64, i: u64) -> u64
        requires map { IsWordMap self.now }
        requires page_in { page < self.now.pool }
        requires i_in { i < 512 }
        ensures index { result ≡ pool_index page i }
        ensures within { result < size_of self.now Area.Pool }
    {
        ENTRIES * page + i
    }

    /// The area that this word (below `total`) is in, and which of its words
    /// it is.
    pub fn area_of(&self, word: u32) -> (Area, u64)
        requires map { IsWordMap self.now }
        requires within { word < total self.now }
        ensures at { place self.now result.0 result.1 ≡ word }
        ensures within { result.1 < size_of self.now result.0 }
    {
        let word = word as u64;
        match word {
            0 => (Area::Root, 0),
            1 => (Area::Slots, 0),
            2 => (Area::Seq, 0),
            3 => (Area::Count, 0),
            4 => (Area::RangeStart, 0),
            5 => (Area::RangeEnd, 0),
            6 => (Area::Lock, 0),
            7 => (Area::Pause, 0),
            _ if word < self.host() => self.bits_area_of(word),
            _ => self.pages_area_of(word),
        }
    }

    // The same from the area State up to Log.
    fn bits_area_of(&self, word: u64) -> (Area, u64)
        requires map { IsWordMap self.now }
        requires least { 8 ≤ word }
        requires within { word < place self.now Area.Host 0 }
        ensures at { place self.now result.0 result.1 ≡ word }
        ensures within { result.1 < size_of self.now result.0 }
    {
        if word < self.pool_map() {
            return (Area::State, word - 8);
        }
        if word < self.frame_map() {
            return (Area::PoolMap, word - self.pool_map());
        }
        if word < self.log() {
            return (Area::FrameMap, word - self.frame_map());
        }
        (Area::Log, word - self.log())
    }

    // The same from the area Host on.
    fn pages_area_of(&self, word: u64) -> (Area, u64)
        requires map { IsWordMap self.now }
        requires least { place self.now Area.Host 0 ≤ word }
        requires within { word < total self.now }
        ensures at { place self.now result.0 result.1 ≡ word }
        ensures within { result.1 < size_of self.now result.0 }
    {
        if word < self.role() {
            return (Area::Host, word - self.host());
        }
        if word < self.pool_pages() {
            return (Area::Role, word - self.role());
        }
        if word < self.content() {
            return (Area::Pool, word - self.pool_pages());
        }
        (Area::Content, word - self.content())
    }
}
