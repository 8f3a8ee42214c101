//! The slots of held tags, and how tags pass from thread to thread.
ghost use Rattle.std.specs.Prelude.{◌≡◌, ◌⊎◌, ◌<◌, ◌≤◌, OnOk, ⊤};
ghost use mathlib.Core.Option.{some};
ghost use Rattle.tag_pool.specs.Slots as hands;
ghost use Rattle.tag_cache.specs.Caches.{IsCacheOf, IsLast, IsKnown, KeepsNone, Holds, slot_of, hand_of};
ghost use Rattle.tag_cache.specs.Changes.{IsUnchanged, KeepsSame, SameWindow};
ghost use Rattle.tag_cache.specs.Holding.{Writes};
ghost use Rattle.tag_cache.specs.Slots.{Passes, PassesAlone, PostsLast};
ghost use Rattle.tag_cache.specs.Tallies.{Tallies};
ghost use Rattle.refusals.specs.Refusals.{RefusesBy};
ghost use Rattle.tag_cache.specs.Refusals.{tag_checks};
ghost use Rattle.tag_core.specs.declared.posts.TheConstants.{MOST_NOTE};
ghost use Rattle.tag_cache.specs.Calls.{DoesRead, DoesReadNote, DoesWrite, DoesPost, DoesTake, GivesBack};

use crate::cache::Cache;
use tag_pool::{Pool, TagFault};

impl<R: Copy> Cache<R> {
    /// Returns the value in the slot of a tag that the user holds. `NoSuchTag` means that the number is not below the
    /// total, `NotHeld` that the user does not hold the tag, as where it is kept; nothing changes then.
    #[inline]
    pub fn read(&mut self, pool: &Pool<R>, tag: u32) -> Result<R, TagFault>
        requires { IsCacheOf pool.now self.old }
        ensures cache { IsCacheOf pool.now self.new }
        ensures does { DoesRead tag pool.now result self.old self.new }
    {
        if self.knows(tag) {
            return Ok(self.read_known(pool, tag));
        }
        if self.keeps(tag) {
            return Err(TagFault::NotHeld);
        }
        pool.read(&mut self.hand, tag)
    }

    /// Writes the slot of a tag that the user holds, and returns its former value. `NoSuchTag` means that the number is
    /// not below the total, `NotHeld` that the user does not hold the tag, as where it is kept; nothing changes then.
    #[inline]
    pub fn write(&mut self, pool: &Pool<R>, tag: u32, value: R) -> Result<R, TagFault>
        requires { IsCacheOf pool.now self.old }
        ensures cache { IsCacheOf pool.now self.new }
        ensures does { DoesWrite tag value pool.now result self.old self.new }
    {
        if self.knows(tag) {
            return Ok(self.write_known(pool, tag, value));
        }
        self.check_unknown(pool, tag)?;
        Ok(self.write_unknown(pool, tag, value))
    }

    /// Checks that the user holds a tag that it is not known to hold. It is out of line, so that other writes are short.
    #[inline(never)]
    fn check_unknown(&self, pool: &Pool<R>, tag: u32) -> Result<(), TagFault>
        requires { IsCacheOf pool.now self.now }
        ensures refusals { RefusesBy (tag_checks pool.now self.now tag) ⊤ result }
    {
        let _ = self.find_held(pool, tag)?;
        Ok(())
    }

    /// Writes the slot of a tag that the user holds, and returns its former value.
    #[inline(never)]
    fn write_unknown(&mut self, pool: &Pool<R>, tag: u32, value: R) -> R
        requires cache { IsCacheOf pool.now self.old }
        requires held { Holds self.old tag }
        ensures cache { IsCacheOf pool.now self.new }
        ensures former { slot_of self.old tag ≡ some result }
        ensures writes { Writes tag value self.old self.new }
        ensures hand { hands.Writes tag value (hand_of self.old) (hand_of self.new) }
        ensures kept { KeepsSame self.old self.new }
        ensures window { SameWindow self.old self.new }
    {
        pool.write_held(&mut self.hand, tag, value)
    }

    /// Gives up a tag that the user holds with its slot, so that another thread can `take` it, and tells nobody. If tags are
    /// kept only while the user holds one, and this is the last that it is known to hold, all kept tags go back first.
    /// Returns how many went back, which the caller has to see to. `NoSuchTag` means that the number is not below the
    /// total, `NotHeld` that the user does not hold the tag, as where it is kept; nothing changes then.
    #[inline]
    pub fn post_quietly(&mut self, pool: &Pool<R>, tag: u32) -> Result<u32, TagFault>
        requires { IsCacheOf pool.now self.old }
        ensures cache { IsCacheOf pool.now self.new }
        ensures does { DoesPost tag 0 pool.now result self.old self.new }
    {
        self.post_noted_quietly(pool, tag, 0)
    }

    /// Gives up a tag as `post_quietly` does, with a note that any hand may read until the tag is taken, at most
    /// `tag_core::MOST_NOTE`.
    #[inline]
    pub fn post_noted_quietly(
        &mut self,
        pool: &Pool<R>,
        tag: u32,
        note: u64,
    ) -> Result<u32, TagFault>
        requires cache { IsCacheOf pool.now self.old }
        requires note { note ≤ MOST_NOTE }
        ensures cache { IsCacheOf pool.now self.new }
        ensures does { DoesPost tag note pool.now result self.old self.new }
    {
        if self.knows(tag) {
            return Ok(self.post_known(pool, tag, note));
        }
        self.post_other(pool, tag, note)?;
        Ok(0)
    }

    /// Gives up a tag that the user is not known to hold.
    fn post_other(&mut self, pool: &Pool<R>, tag: u32, note: u64) -> Result<(), TagFault>
        requires cache { IsCacheOf pool.now self.old }
        requires note { note ≤ MOST_NOTE }
        requires unknown { ¬ (IsKnown self.old tag) }
        ensures cache { IsCacheOf pool.now self.new }
        ensures refusals { RefusesBy (tag_checks pool.now self.old tag) (IsUnchanged self.old self.new) result }
        ensures passes { OnOk result (Passes tag note self.old self.new) }
        ensures flushes { IsLast tag self.old → OnOk result (PostsLast pool.now tag note self.old self.new) }
        ensures freed { OnOk result (GivesBack 0 self.old self.new) }
        ensures tally { Tallies 0 0 self.old self.new }
    {
        if self.keeps(tag) {
            return Err(TagFault::NotHeld);
        }
        pool.post_noted(&mut self.hand, tag, note)
    }

    /// Gives up a tag that the user is known to hold. If it is the last, all kept tags go back first. Returns how many went
    /// back.
    fn post_known(&mut self, pool: &Pool<R>, tag: u32, note: u64) -> u32
        requires cache { IsCacheOf pool.now self.old }
        requires note { note ≤ MOST_NOTE }
        requires known { IsKnown self.old tag }
        ensures cache { IsCacheOf pool.now self.new }
        ensures passes { Passes tag note self.old self.new }
        ensures flushes { IsLast tag self.old → PostsLast pool.now tag note self.old self.new }
        ensures freed { GivesBack result self.old self.new }
        ensures tally { Tallies 0 0 self.old self.new }
    {
        if self.is_last(tag) {
            let freed = self.flush_quietly(pool);
            self.post_alone(pool, tag, note);
            return freed;
        }
        self.post_alone(pool, tag, note);
        0
    }

    /// Gives up a tag that the user is known to hold, and no kept tag with it. If it is the last, none is kept.
    fn post_alone(&mut self, pool: &Pool<R>, tag: u32, note: u64)
        requires cache { IsCacheOf pool.now self.old }
        requires note { note ≤ MOST_NOTE }
        requires known { IsKnown self.old tag }
        requires other { KeepsNone self.old ⊎ ¬ (IsLast tag self.old) }
        ensures cache { IsCacheOf pool.now self.new }
        ensures passes { PassesAlone tag note self.old self.new }
        ensures tally { Tallies 0 0 self.old self.new }
    {
        self.forget(tag);
        let Ok(()) = pool.post_noted(&mut self.hand, tag, note) else {
            unreachable!()
        };
    }

    /// Returns the note of a posted tag, or `None` if it is not posted, as `Pool::read_note`. `NoSuchTag` means that the number
    /// is not below the total.
    #[inline]
    pub fn read_note(&mut self, pool: &Pool<R>, tag: u32) -> Result<Option<u64>, TagFault>
        requires { IsCacheOf pool.now self.old }
        ensures cache { IsCacheOf pool.now self.new }
        ensures does { DoesReadNote tag pool.now result self.old self.new }
    {
        pool.read_note(&mut self.hand, tag)
    }

    /// Takes a posted tag with its slot. `NotPosted` leaves what the user holds unchanged. `NoSuchTag` means that the
    /// number is not below the total.
    #[inline]
    pub fn take(&mut self, pool: &Pool<R>, tag: u32) -> Result<(), TagFault>
        requires { IsCacheOf pool.now self.old }
        ensures cache { IsCacheOf pool.now self.new }
        ensures does { DoesTake tag pool.now result self.old self.new }
    {
        pool.take(&mut self.hand, tag)
    }
}
