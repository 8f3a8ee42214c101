//! Gives kept tags back, and tells whether a hand keeps any, through the handle of a hand. Each call is described in tags.h.
ghost use Rattle.tag_c.specs.Calls.{CallsBy, TellsBy};
ghost use Rattle.tag_c.specs.Telling.{FlushesAndTells};
ghost use Rattle.tag_c.specs.Views.{SaysCached};

use crate::any_hand::{AnyHand, on_hand};
use crate::bell::ToldHands;
use crate::cached::CachedMember;
use crate::handle::Handle;
use crate::member::Member;
use crate::telling::TellingCalls;
use tag_pool::Kind;

/// Calls that give kept tags back, of which a hand without a cache has none.
trait FlushCalls: AnyHand {
    /// Gives all kept tags back, tells others of as many, and returns how many they were.
    fn flush(&mut self, told: &mut ToldHands) -> i32
        ensures { Self.changes (FlushesAndTells told.old told.new result) self.old self.new };

    /// Returns 1 if the hand has a cache, and 0 if not.
    fn is_cached(&mut self) -> i32
        ensures { Self.changes (SaysCached result) self.old self.new };
}

impl FlushCalls for Member {
    #[inline(always)]
    fn flush(&mut self, _told: &mut ToldHands) -> i32 {
        0
    }

    #[inline(always)]
    fn is_cached(&mut self) -> i32 {
        0
    }
}

impl FlushCalls for CachedMember {
    #[inline(never)]
    fn flush(&mut self, told: &mut ToldHands) -> i32 {
        let freed = self.cache.flush_quietly(&self.shared.tags);
        let whom = self.see(Kind::Ordinary, freed);
        told.fill(whom, freed as i32)
    }

    #[inline(always)]
    fn is_cached(&mut self) -> i32 {
        1
    }
}

#[unsafe(no_mangle)]
pub extern "C" fn tags_flush(hand: &mut Handle, told: &mut ToldHands) -> i32
    ensures { TellsBy FlushesAndTells told.old told.new result hand.old.object.value hand.new.object.value }
{
    on_hand!(hand.flush(told))
}

#[unsafe(no_mangle)]
pub extern "C" fn tags_is_cached(hand: &mut Handle) -> i32
    ensures { CallsBy (SaysCached result) result hand.old.object.value hand.new.object.value }
{
    on_hand!(hand.is_cached())
}
