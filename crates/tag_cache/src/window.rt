//! The window: its place, and which of its tags the user is known to hold.
ghost use Rattle.std.specs.Prelude.{◌≡◌, ◌≢◌, ◌⊎◌, ℕ, ◌+◌, ◌^◌, ◌<◌, ◌≤◌, ◌↔◌, IsTrue};
ghost use Rattle.tag_cache.specs.Windows.{IsIn};
ghost use Rattle.tag_cache.specs.Caches.{IsKnown, IsWithin, IsFixed, IsLast, KeepsNone, LeavesWindow, Holds, split_of};
ghost use Rattle.tag_cache.specs.Changes.{SameHand, Learns, Forgets};

use crate::cache::{Cache, WINDOW};
use crate::keeping::Keeping;

impl<R> Cache<R> {
    /// Returns how far the tag is behind the first one of the window, 0 to 63, or a larger number if it is outside.
    #[inline(always)]
    pub(crate) fn offset(&self, tag: u32) -> u32
        ensures within { (result < 64) ↔ IsWithin self.now tag }
        ensures offset { result < 64 → self.now.first + result ≡ tag }
    {
        tag.wrapping_sub(self.first)
    }

    /// Returns whether the user is known to hold the tag, which is then an ordinary one.
    #[inline(always)]
    pub(crate) fn knows(&self, tag: u32) -> bool
        ensures { IsTrue result ↔ IsKnown self.now tag }
    {
        let offset = self.offset(tag);
        if offset >= WINDOW {
            return false;
        }
        self.known >> offset & 1 == 1
    }

    /// Returns the mask of the tags that the user is known to hold, without this one.
    #[inline(always)]
    pub(crate) fn known_without(&self, tag: u32) -> u64
        ensures { (other : ℕ) → IsIn self.now.first result other ↔ (IsKnown self.now other × other ≢ tag) }
    {
        let offset = self.offset(tag);
        if offset >= WINDOW {
            return self.known;
        }
        self.known & !(1 << offset)
    }

    /// Returns whether nothing may be kept any more once this tag is cleared or posted: the user is known to hold no
    /// other, and tags are kept only while it does.
    #[inline(always)]
    pub(crate) fn is_last(&self, tag: u32) -> bool
        ensures { IsTrue result ↔ IsLast tag self.now }
    {
        match self.keeping {
            Keeping::Always => false,
            Keeping::WhileHolding => self.known_without(tag) == 0,
        }
    }

    /// Says that it is no longer known that the user holds the tag, which is about to leave.
    #[inline(always)]
    pub(crate) fn forget(&mut self, tag: u32)
        requires { KeepsNone self.old ⊎ ¬ (IsLast tag self.old) }
        ensures { Forgets tag self.old self.new }
    {
        self.known = self.known_without(tag);
    }

    /// Moves the window to the tag if nothing is kept and the tag is outside. What the user holds in the former window is
    /// known no more.
    pub(crate) fn aim(&mut self, tag: u32)
        requires { tag < 2 ^ 31 }
        ensures same { SameHand self.old self.new }
        ensures aimed { IsWithin self.new tag ⊎ ((self.new ≡ self.old) × ¬ (KeepsNone self.old)) }
        ensures moved { KeepsNone self.old ⊎ (self.new ≡ self.old) }
        ensures still { (KeepsNone self.old → IsWithin self.old tag) → self.new ≡ self.old }
        ensures knows { (other : ℕ) → IsKnown self.new other → IsKnown self.old other }
    {
        if self.kept != 0 {
            return;
        }
        if self.offset(tag) < WINDOW {
            return;
        }
        self.first = tag / WINDOW * WINDOW;
        self.known = 0;
    }

    /// Moves the window to a tag that is cleared as `aim` does, unless tags are kept only while the user is known to hold
    /// another.
    pub(crate) fn follow(&mut self, tag: u32)
        requires { tag < 2 ^ 31 }
        ensures same { SameHand self.old self.new }
        ensures aimed { IsWithin self.new tag ⊎ ((self.new ≡ self.old) × IsFixed self.old) }
        ensures moved { KeepsNone self.old ⊎ (self.new ≡ self.old) }
        ensures still { LeavesWindow tag self.old → self.new ≡ self.old }
    {
        match self.keeping {
            Keeping::Always => self.aim(tag),
            Keeping::WhileHolding => {}
        }
    }

    /// Says that the user holds an ordinary tag, where nothing is kept. The window moves there first.
    pub(crate) fn learn(&mut self, tag: u32)
        requires held { Holds self.old tag }
        requires ordinary { split_of self.old ≤ tag }
        requires low { tag < 2 ^ 31 }
        requires none { KeepsNone self.old }
        ensures same { SameHand self.old self.new }
        ensures learns { Learns tag self.old self.new }
    {
        self.aim(tag);
        self.note(tag);
    }

    /// Says that the user holds an ordinary tag, if it is in the window.
    fn note(&mut self, tag: u32)
        requires held { Holds self.old tag }
        requires ordinary { split_of self.old ≤ tag }
        ensures same { SameHand self.old self.new }
        ensures learns { IsWithin self.old tag → Learns tag self.old self.new }
    {
        let offset = self.offset(tag);
        if offset >= WINDOW {
            return;
        }
        self.known |= 1 << offset;
    }
}
