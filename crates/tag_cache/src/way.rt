//! What becomes of an ordinary tag that is cleared: the one decision of a clear.
ghost use Rattle.std.specs.Prelude.{◌↔◌, IsTrue};
ghost use Rattle.tag_cache.specs.Caches.{HasNoPlace};
ghost use Rattle.tag_cache.specs.Clears.{CallsFor};

use crate::cache::{Cache, WINDOW};

/// What becomes of an ordinary tag that is cleared.
#[derive(Clone, Copy)]
pub(crate) enum Way {
    /// It is kept besides the others.
    Keep,
    /// All kept tags go back, and it is kept instead of them.
    KeepInstead,
    /// It goes back, and the kept tags stay.
    GiveBack,
    /// All kept tags go back, and then it does.
    GiveBackAll,
}

impl<R> Cache<R> {
    /// Decides what becomes of an ordinary tag that is cleared.
    #[inline(always)]
    pub(crate) fn way(&self, tag: u32) -> Way
        ensures { CallsFor result tag self.now }
    {
        if self.is_last(tag) {
            return Way::GiveBackAll;
        }
        if !self.can_keep(tag) {
            return Way::GiveBack;
        }
        if self.lacks_place(tag) {
            return Way::KeepInstead;
        }
        Way::Keep
    }

    /// Returns whether there is no place to keep the tag besides those that are kept.
    #[inline(always)]
    fn lacks_place(&self, tag: u32) -> bool
        ensures { IsTrue result ↔ HasNoPlace tag self.now }
    {
        if self.is_full() {
            return true;
        }
        if self.offset(tag) < WINDOW {
            return false;
        }
        !self.keeps_none()
    }
}
