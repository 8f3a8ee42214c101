//! Who was told.
ghost use Rattle.std.specs.Prelude.{◌≡◌, ◌↔◌, IsTrue};

use tag_core::Unroused;

/// The callers that a call told, a bit for the number of each: 1 is told. Whoever gets it has to wake them, and can wake
/// nobody else by it.
#[derive(Drop)]
pub struct Told {
    /// Those that it told as sleepers.
    pub(crate) sleepers: Unroused,
    /// Those that it told as listeners.
    pub(crate) listeners: Unroused,
}

impl Told {
    /// Nobody.
    pub fn none() -> Told
        ensures { (result.sleepers ≡ 0) × (result.listeners ≡ 0) }
    {
        Told {
            sleepers: Unroused::none(),
            listeners: Unroused::none(),
        }
    }

    /// Returns whether nobody was told.
    pub fn is_none(&self) -> bool
        ensures { IsTrue result ↔ ((self.now.sleepers ≡ 0) × (self.now.listeners ≡ 0)) }
    {
        self.sleepers() == 0 && self.listeners() == 0
    }

    /// Returns those that were told as sleepers.
    pub fn sleepers(&self) -> u64
        ensures { result ≡ self.now.sleepers }
    {
        self.sleepers.callers()
    }

    /// Returns those that were told as listeners.
    pub fn listeners(&self) -> u64
        ensures { result ≡ self.now.listeners }
    {
        self.listeners.callers()
    }
}
