//! Reads and writes the slots of held tags, and passes tags to other hands, through the handle of a hand. Each call is
//! described in tags.h.
ghost use Rattle.std.specs.Prelude.{◌≡◌};
ghost use Rattle.tag_c.specs.Calls.{CallsBy, TellsBy, Through, DoesRead, DoesWrite, DoesPost, DoesTake};
ghost use Rattle.tag_c.specs.Codes.{IsRefusal, code_of_done};
ghost use Rattle.tag_c.specs.Telling.{GivesAndTells, TellsOfKept};

use crate::any_hand::{AnyHand, on_hand};
use crate::bell::ToldHands;
use crate::cached::CachedMember;
use crate::codes::{done_code, value_code};
use crate::handle::Handle;
use crate::member::Member;
use tag_pool::Kind;

/// Calls that use the slots of held tags, and pass tags to other hands.
trait SlotCalls: AnyHand {
    /// Reads the slot of a held tag into `value`.
    fn read(&mut self, tag: u32, value: &mut u64) -> i32
        ensures calls { Self.changes (Through (DoesRead tag value.new) code_of_done result)
            self.old self.new }
        ensures kept { IsRefusal result → value.new ≡ value.old };

    /// Writes the slot of a held tag, and what it held before into `former`.
    fn write(&mut self, tag: u32, value: u64, former: &mut u64) -> i32
        ensures calls { Self.changes (Through (DoesWrite tag value former.new) code_of_done result)
            self.old self.new }
        ensures kept { IsRefusal result → former.new ≡ former.old };

    /// Posts a held tag, so that any hand of the pool can take it, and tells others of kept tags that went back before.
    fn post(&mut self, tag: u32, told: &mut ToldHands) -> i32
        ensures { Self.changes (GivesAndTells (DoesPost tag) TellsOfKept told.old told.new result) self.old self.new };

    /// Does so, but tells nobody: whoever calls sees to the kept tags that went back, and to those that are kept.
    fn post_quietly(&mut self, tag: u32) -> i32
        ensures { Self.changes (Through (DoesPost tag) code_of_done result) self.old self.new };

    /// Takes a posted tag.
    fn take(&mut self, tag: u32) -> i32
        ensures { Self.changes (Through (DoesTake tag) code_of_done result) self.old self.new };
}

impl SlotCalls for Member {
    #[inline(always)]
    fn read(&mut self, tag: u32, value: &mut u64) -> i32 {
        value_code(self.shared.tags.read(&mut self.hand, tag), value)
    }

    #[inline(always)]
    fn write(&mut self, tag: u32, value: u64, former: &mut u64) -> i32 {
        value_code(self.shared.tags.write(&mut self.hand, tag, value), former)
    }

    // A post makes no tag free.
    #[inline(always)]
    fn post(&mut self, tag: u32, _told: &mut ToldHands) -> i32 {
        self.post_quietly(tag)
    }

    #[inline(always)]
    fn post_quietly(&mut self, tag: u32) -> i32 {
        done_code(self.shared.tags.post(&mut self.hand, tag))
    }

    #[inline(always)]
    fn take(&mut self, tag: u32) -> i32 {
        done_code(self.shared.tags.take(&mut self.hand, tag))
    }
}

impl SlotCalls for CachedMember {
    #[inline(never)]
    fn read(&mut self, tag: u32, value: &mut u64) -> i32 {
        value_code(self.cache.read(&self.shared.tags, tag), value)
    }

    #[inline(never)]
    fn write(&mut self, tag: u32, value: u64, former: &mut u64) -> i32 {
        value_code(self.cache.write(&self.shared.tags, tag, value), former)
    }

    #[inline(never)]
    fn post(&mut self, tag: u32, told: &mut ToldHands) -> i32 {
        let given = self.cache.post_quietly(&self.shared.tags, tag);
        self.end_giving(given, Kind::Ordinary, told)
    }

    #[inline(never)]
    fn post_quietly(&mut self, tag: u32) -> i32 {
        done_code(self.cache.post_quietly(&self.shared.tags, tag))
    }

    #[inline(never)]
    fn take(&mut self, tag: u32) -> i32 {
        done_code(self.cache.take(&self.shared.tags, tag))
    }
}

#[unsafe(no_mangle)]
pub extern "C" fn tags_read(hand: &mut Handle, tag: u32, value: &mut u64) -> i32
    ensures calls { CallsBy (Through (DoesRead tag value.new) code_of_done result) result
        hand.old.object.value hand.new.object.value }
    ensures kept { IsRefusal result → value.new ≡ value.old }
{
    on_hand!(hand.read(tag, value))
}

#[unsafe(no_mangle)]
pub extern "C" fn tags_write(hand: &mut Handle, tag: u32, value: u64, former: &mut u64) -> i32
    ensures calls { CallsBy (Through (DoesWrite tag value former.new) code_of_done result) result
        hand.old.object.value hand.new.object.value }
    ensures kept { IsRefusal result → former.new ≡ former.old }
{
    on_hand!(hand.write(tag, value, former))
}

#[unsafe(no_mangle)]
pub extern "C" fn tags_post(hand: &mut Handle, tag: u32, told: &mut ToldHands) -> i32
    ensures { TellsBy (GivesAndTells (DoesPost tag) TellsOfKept) told.old told.new result
        hand.old.object.value hand.new.object.value }
{
    on_hand!(hand.post(tag, told))
}

#[unsafe(no_mangle)]
pub extern "C" fn tags_post_quietly(hand: &mut Handle, tag: u32) -> i32
    ensures { CallsBy (Through (DoesPost tag) code_of_done result) result
        hand.old.object.value hand.new.object.value }
{
    on_hand!(hand.post_quietly(tag))
}

#[unsafe(no_mangle)]
pub extern "C" fn tags_take(hand: &mut Handle, tag: u32) -> i32
    ensures { CallsBy (Through (DoesTake tag) code_of_done result) result
        hand.old.object.value hand.new.object.value }
{
    on_hand!(hand.take(tag))
}
