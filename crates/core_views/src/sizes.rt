ghost use Rattle.std.specs.Prelude.{◌≡◌, ◌<◌};
ghost use Rattle.core_views.specs.Sizes.{AreFewActors, actor_at, actors_of, first_page_in, index_of, mode_of, is_threads, sizes_of};

use crate::{Actor, Header};

/// How dirty logs are taken (api.rst, `KVM_CAP_MANUAL_DIRTY_LOG_PROTECT2`).
#[derive(Clone, Copy, Drop)]
pub enum LogMode {
    /// A get takes the bits out and protects their pages.
    Automatic,
    /// A get only looks; a clear takes out and protects.
    Manual,
    /// The same, and a new log has every bit set.
    ManualAllSet,
}

/// The sizes of a machine, from a trace's header.
#[derive(Clone, Copy, Drop)]
pub struct Sizes {
    /// Host pages.
    pub pages: u64,
    /// Host frames.
    pub frames: u64,
    /// Content words of a page.
    pub words: u64,
    /// Pool pages.
    pub pool: u64,
    /// Translations that a virtual processor caches at most.
    pub cache: u64,
    /// Virtual processors.
    pub vcpus: u64,
    /// Host threads.
    pub hosts: u64,
    /// Workers.
    pub workers: u64,
    /// How dirty logs are taken.
    pub mode: LogMode,
    /// The first host page of each host thread, which owns the pages up to the next
    /// one's; `pages` where there is no such thread.
    pub first_pages: [u64; 4],
}

// How dirty logs are taken, by the header's number.
fn mode_of(manual: u8) -> LogMode
    ensures { result ≡ mode_of manual }
{
    match manual {
        0 => LogMode::Automatic,
        1 => LogMode::Manual,
        _ => LogMode::ManualAllSet,
    }
}

// The first page of the host thread, if it is there.
fn first_page(header: &Header, host: usize) -> u64
    ensures { result ≡ first_page_in header.now.hosts header.now.pages host }
{
    match header.hosts.as_slice().get(host) {
        Some(first) => *first,
        None => header.pages,
    }
}

impl Sizes {
    /// The sizes that the header gives.
    pub fn of(header: &Header) -> Self
        ensures { result ≡ sizes_of header.now }
    {
        Sizes {
            pages: header.pages,
            frames: header.frames,
            words: header.words as u64,
            pool: header.pool as u64,
            cache: header.cache as u64,
            vcpus: header.vcpus as u64,
            hosts: header.hosts.as_slice().len() as u64,
            workers: header.workers as u64,
            mode: mode_of(header.manual),
            first_pages: [
                first_page(header, 0),
                first_page(header, 1),
                first_page(header, 2),
                first_page(header, 3),
            ],
        }
    }

    /// Whether the page is one of this host thread's own.
    pub fn owns(&self, host: u8, page: u64) -> bool
        ensures { result ≡ is_threads self.now host page }
    {
        let first_of = |host: usize| self.first_pages.get(host).copied().unwrap_or(self.pages);
        first_of(host as usize) <= page && page < first_of(host as usize + 1)
    }

    /// How many actors the machine has: virtual processors, host threads, the
    /// manager and the workers.
    pub fn actors(&self) -> u64
        requires { AreFewActors self.now }
        ensures { result ≡ actors_of self.now }
    {
        self.vcpus + self.hosts + 1 + self.workers
    }

    /// The place of an actor among all of them, in the order `v0`.., `h0`..,
    /// `vm`, `w0`...
    pub fn index_of(&self, actor: Actor) -> u64
        requires { AreFewActors self.now }
        ensures { result ≡ index_of self.now actor }
    {
        match actor {
            Actor::Vcpu(n) => n as u64,
            Actor::Host(n) => self.vcpus + n as u64,
            Actor::Manager => self.vcpus + self.hosts,
            Actor::Worker(n) => self.vcpus + self.hosts + 1 + n as u64,
        }
    }

    /// The actor at this place.
    pub fn actor_at(&self, index: u64) -> Actor
        requires few { AreFewActors self.now }
        requires there { index < actors_of self.now }
        ensures { result ≡ actor_at self.now index }
    {
        if index < self.vcpus {
            Actor::Vcpu(index as u8)
        } else if index - self.vcpus < self.hosts {
            Actor::Host((index - self.vcpus) as u8)
        } else if index == self.vcpus + self.hosts {
            Actor::Manager
        } else {
            Actor::Worker((index - self.vcpus - self.hosts - 1) as u8)
        }
    }
}
