ghost use Rattle.std.specs.Prelude.{◌≡◌, ◌≤◌};
ghost use Rattle.core_views.specs.Host.{is_huge};
ghost use Rattle.core_views.specs.HostRuns.{run_pages};

/// What the host maps one of its pages to (mmu.rst, "Translation").
#[derive(Clone, Copy, Drop)]
pub struct HostEntry {
    /// The frame that holds the page's content, whether the page is present or not.
    pub frame: u64,
    /// Whether the host maps the page now: an access of one that isn't present
    /// brings it in first.
    pub present: bool,
    /// Whether the host allows writes to the page.
    pub writable: bool,
    /// How much the host maps as one: 1 for the page alone, 2 for the 512 pages of its
    /// run, 3 for 262,144 (mmu.rst, "Large pages").
    pub level: u8,
}

impl HostEntry {
    /// Whether the host maps the page and others of its run as one large page.
    pub fn is_huge(&self) -> bool
        ensures { result ≡ is_huge self.now }
    {
        self.level > 1
    }
}

/// How many host pages the run of this level has (mmu.rst, "Large pages").
pub fn run_pages(level: u8) -> u64
    ensures pages { result ≡ run_pages level }
    ensures some { 1 ≤ result }
    ensures most { result ≤ 262144 }
{
    match level {
        3 => 262144,
        2 => 512,
        _ => 1,
    }
}
