//! Which tags are kept.
ghost use Rattle.std.specs.Prelude.{◌≡◌, ◌+◌, ◌<◌, ◌≤◌, ◌^◌, ◌↔◌, IsTrue, IsFalse};
ghost use Rattle.tag_cache.specs.Caches.{IsKept, IsLast, HasPlace, HasNoPlace, KeepsNone, KeepsWithCare, LeavesWindow, CanBeKept, Holds, most_of, count_of, split_of, hand_of};
ghost use Rattle.tag_cache.specs.Changes.{HandsOut, Reuses, Keeps, KeepsAlso, KnowsLess};

use crate::cache::{Cache, MOST_REUSED, WINDOW};
use crate::keeping::Keeping;

impl<R> Cache<R> {
    /// Returns whether the tag is kept.
    #[inline(always)]
    pub fn keeps(&self, tag: u32) -> bool
        ensures { IsTrue result ↔ IsKept self.now tag }
    {
        let offset = self.offset(tag);
        if offset >= WINDOW {
            return false;
        }
        self.kept >> offset & 1 == 1
    }

    /// Returns the number of kept tags. Under `Keeping::WhileHolding` it is 0 unless the user holds a tag.
    #[inline(always)]
    pub fn count(&self) -> u32
        ensures count { result ≡ count_of self.now }
        ensures few { result ≤ most_of self.now }
        ensures careful { KeepsWithCare self.now }
    {
        self.kept.count_ones()
    }

    /// Returns whether as many tags are kept as may be.
    #[inline(always)]
    pub(crate) fn is_full(&self) -> bool
        ensures full { IsTrue result → most_of self.now ≤ count_of self.now }
        ensures room { IsFalse result → count_of self.now < most_of self.now }
    {
        self.room == 0
    }

    /// Returns whether no tag is kept.
    #[inline(always)]
    pub fn keeps_none(&self) -> bool
        ensures { IsTrue result ↔ KeepsNone self.now }
    {
        self.kept == 0
    }

    /// Hands the least kept tag to the user.
    #[inline(always)]
    pub(crate) fn reuse(&mut self) -> u32
        requires { ¬ (KeepsNone self.old) }
        ensures { Reuses result self.old self.new }
    {
        let place = self.kept.trailing_zeros();
        let tag = self.first + place;
        self.hand_out_at(tag, place);
        tag
    }

    /// Hands a kept tag to the user.
    pub(crate) fn hand_out(&mut self, tag: u32)
        requires { IsKept self.old tag }
        ensures { HandsOut tag self.old self.new }
    {
        let offset = self.offset(tag);
        self.hand_out_at(tag, offset);
    }

    /// Hands a kept tag to the user, this far behind the first tag of the window.
    #[inline(always)]
    fn hand_out_at(&mut self, tag: u32, offset: u32)
        requires kept { IsKept self.old tag }
        requires offset { (self.old.first + offset ≡ tag) × (offset < 64) }
        ensures { HandsOut tag self.old self.new }
    {
        self.kept &= !(1 << offset);
        self.known |= 1 << offset;
        self.room += 1;
        self.reused += 1;
    }

    /// Returns whether the tag may be kept where no other is.
    pub(crate) fn can_keep(&self, tag: u32) -> bool
        ensures { IsTrue result ↔ CanBeKept tag self.now }
    {
        if self.most == 0 {
            return false;
        }
        if self.reused >= MOST_REUSED {
            return false;
        }
        match self.keeping {
            Keeping::Always => true,
            Keeping::WhileHolding => self.offset(tag) < WINDOW,
        }
    }

    /// Keeps an ordinary tag that the user holds and that there is a place for. Where nothing is kept and the tag is
    /// outside the window, the window moves there.
    #[inline(always)]
    pub(crate) fn keep(&mut self, tag: u32)
        requires held { Holds self.old tag }
        requires ordinary { split_of self.old ≤ tag }
        requires low { tag < 2 ^ 31 }
        requires can { CanBeKept tag self.old }
        requires place { ¬ (HasNoPlace tag self.old) }
        requires other { ¬ (IsLast tag self.old) }
        ensures hand { hand_of self.new ≡ hand_of self.old }
        ensures also { KeepsAlso tag self.old self.new }
        ensures knows { LeavesWindow tag self.old → KnowsLess tag self.old self.new }
    {
        self.follow(tag);
        let offset = self.offset(tag);
        self.keep_at(tag, offset);
    }

    /// Returns whether a clear keeps the tag if nobody waits: the user is known to hold it, and there is a place for it.
    #[inline(always)]
    pub fn has_place(&self, tag: u32) -> bool
        ensures { IsTrue result ↔ HasPlace tag self.now }
    {
        if !self.knows(tag) {
            return false;
        }
        if self.is_full() {
            return false;
        }
        if self.reused >= MOST_REUSED {
            return false;
        }
        !self.is_last(tag)
    }

    /// Keeps an ordinary tag that the user holds and that there is a place for, this far behind the first tag of the
    /// window.
    #[inline(always)]
    pub(crate) fn keep_at(&mut self, tag: u32, offset: u32)
        requires held { Holds self.old tag }
        requires ordinary { split_of self.old ≤ tag }
        requires offset { (self.old.first + offset ≡ tag) × (offset < 64) }
        requires can { CanBeKept tag self.old }
        requires place { ¬ (HasNoPlace tag self.old) }
        requires other { ¬ (IsLast tag self.old) }
        ensures { Keeps tag self.old self.new }
    {
        self.known &= !(1 << offset);
        self.kept |= 1 << offset;
        self.room -= 1;
    }
}
