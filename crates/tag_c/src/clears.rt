//! Gives tags back, through the handle of a hand. Each call is described in tags.h.
ghost use Rattle.tag_pool.specs.declared.kind.Kind.TheVariants.{Ordinary};
ghost use Rattle.tag_c.specs.Calls.{CacheCalls, DoesClear, DoesClearBatch, TellsBy};
ghost use Rattle.tag_c.specs.Telling.{GivesAndTells, Tells, TellsOfKind};

use crate::any_hand::{AnyHand, on_hand};
use crate::bell::ToldHands;
use crate::cached::CachedMember;
use crate::handle::Handle;
use crate::member::Member;
use crate::status::fault_code;
use crate::telling::TellingCalls;
use tag_pool::Kind;

/// Calls that give tags back, and tell others of them.
trait ClearCalls: AnyHand {
    /// Gives a held tag back.
    fn clear(&mut self, tag: u32, told: &mut ToldHands) -> i32
        ensures { Self.changes (GivesAndTells (DoesClear tag) (TellsOfKind tag) told.old told.new result)
            self.old self.new };

    /// Gives held ordinary tags back.
    fn clear_batch(&mut self, tags: &[u32], told: &mut ToldHands) -> i32
        ensures { Self.changes (GivesAndTells (DoesClearBatch tags.now) (Tells Ordinary) told.old told.new result)
            self.old self.new };
}

impl ClearCalls for Member {
    // With a branch for each set the compiler knows after the clear where to look.
    #[inline(always)]
    fn clear(&mut self, tag: u32, told: &mut ToldHands) -> i32 {
        match self.shared.tags.clear_quietly(&mut self.hand, tag) {
            Ok(Kind::Ordinary) => self.look_and_tell(Kind::Ordinary, 1, told),
            Ok(Kind::Reserved) => self.look_and_tell(Kind::Reserved, 1, told),
            Err(fault) => fault_code(fault),
        }
    }

    #[inline(always)]
    fn clear_batch(&mut self, tags: &[u32], told: &mut ToldHands) -> i32 {
        match self.shared.tags.clear_batch_quietly(&mut self.hand, tags) {
            Ok(()) => self.look_and_tell(Kind::Ordinary, tags.len() as u32, told),
            Err(fault) => fault_code(fault),
        }
    }
}

impl CachedMember {
    /// Gives a tag back, whatever becomes of it. It is out of line, and called last, so that a clear that keeps its tag
    /// needs no memory and saves no registers.
    #[inline(never)]
    fn clear_any(&mut self, tag: u32, told: &mut ToldHands) -> i32
        ensures { CacheCalls (GivesAndTells (DoesClear tag) (TellsOfKind tag) told.old told.new result)
            self.old self.new }
    {
        let given = self.cache.clear_any(&self.shared.tags, tag);
        let kind = self.shared.tags.kind(tag);
        self.end_giving(given, kind, told)
    }
}

impl ClearCalls for CachedMember {
    #[inline(always)]
    fn clear(&mut self, tag: u32, told: &mut ToldHands) -> i32 {
        if self.cache.has_place(tag) {
            self.cache.clear_placed(&self.shared.tags, tag);
            return self.look_and_tell(0, told);
        }
        self.clear_any(tag, told)
    }

    #[inline(never)]
    fn clear_batch(&mut self, tags: &[u32], told: &mut ToldHands) -> i32 {
        let given = self.cache.clear_batch_quietly(&self.shared.tags, tags);
        self.end_giving(given, Kind::Ordinary, told)
    }
}

#[unsafe(no_mangle)]
pub extern "C" fn tags_clear(hand: &mut Handle, tag: u32, told: &mut ToldHands) -> i32
    ensures { TellsBy (GivesAndTells (DoesClear tag) (TellsOfKind tag)) told.old told.new result
        hand.old.object.value hand.new.object.value }
{
    on_hand!(hand.clear(tag, told))
}

#[unsafe(no_mangle)]
pub extern "C" fn tags_clear_batch(hand: &mut Handle, tags: &[u32], told: &mut ToldHands) -> i32
    ensures { TellsBy (GivesAndTells (DoesClearBatch tags.now) (Tells Ordinary)) told.old told.new result
        hand.old.object.value hand.new.object.value }
{
    on_hand!(hand.clear_batch(tags, told))
}
