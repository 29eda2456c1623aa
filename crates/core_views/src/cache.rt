ghost use Rattle.std.specs.Prelude.{◌≡◌, ◌≤◌, [], ◌∷◌, ◌++◌, take, IfOk, length};
ghost use Rattle.circular_buffer.specs.Buffer.{buffer};

use crate::NoMemory;
use circular_buffer::HeapCircularBuffer;
use std::alloc::Global;
use std::marker::Model;

/// A cached translation: the guest frame that a walk was for, and the leaf that
/// it met, at its level, 1 to 3. Its fields are of one width, so that a copy of it
/// is a copy of three words.
#[derive(Clone, Copy, Drop)]
pub struct Translation {
    pub gfn: u64,
    pub level: u64,
    pub leaf: u64,
}

/// What one virtual processor has cached (its TLB): at most a fixed number of
/// translations, the newest first.
#[derive(Drop)]
pub struct Cache {
    translations: HeapCircularBuffer<Translation>,
}

impl Model for Cache {
    ghost use Rattle.circular_buffer.specs.Buffer.{Buffer};
    ghost use Rattle.core_views.specs.declared.cache.Translation.{Translation};

    ghost Value = { Buffer Translation };

    ghost view = { λ c. c.translations };
}

impl Cache {
    /// An empty cache that holds at most `capacity` translations, 1 to 64.
    pub fn new(alloc: Global, capacity: u8) -> Result<Cache, NoMemory>
        requires least { 1 ≤ capacity }
        requires most { capacity ≤ 64 }
        ensures { IfOk result (λ c. c ≡ buffer [] capacity) }
    {
        let translations = HeapCircularBuffer::with_capacity(alloc, capacity as usize)?;
        Ok(Cache { translations })
    }

    /// The translations in two parts: the newer ones, and then the older ones, each from
    /// the newest on.
    pub fn as_slices(&self) -> (&[Translation], &[Translation])
        ensures { result.0.now ++ result.1.now ≡ self.now.items }
    {
        self.translations.as_slices()
    }

    /// How many translations are cached.
    pub fn len(&self) -> usize
        ensures { result ≡ length self.now.items }
    {
        self.translations.len()
    }

    /// Empties the cache.
    pub fn clear(&mut self)
        ensures { self.new ≡ buffer [] self.old.capacity }
    {
        self.translations.clear();
    }

    /// Caches a translation, before all others. Where the cache is full its oldest
    /// one goes.
    pub fn fill(&mut self, translation: Translation)
        ensures { self.new ≡ buffer (take self.old.capacity (translation ∷ self.old.items)) self.old.capacity }
    {
        self.translations.push_front(translation);
    }
}
