//! Gives back the tags of a mask in one call, through the handle of a hand. The call is described in tags.h.
ghost use Rattle.tag_pool.specs.declared.kind.Kind.TheVariants.{Ordinary};
ghost use Rattle.tag_c.specs.Calls.{DoesClearMask, TellsBy};
ghost use Rattle.tag_c.specs.Telling.{GivesAndTells, Tells};

use crate::any_hand::{AnyHand, on_hand};
use crate::bell::ToldHands;
use crate::cached::CachedMember;
use crate::handle::Handle;
use crate::member::Member;
use crate::status::fault_code;
use crate::telling::TellingCalls;
use tag_pool::Kind;

/// A call that gives back the tags of a mask, and tells others of them.
trait MaskCalls: AnyHand {
    /// Gives the held ordinary tags of a mask back.
    fn clear_mask(&mut self, first: u32, mask: u64, told: &mut ToldHands) -> i32
        ensures { Self.changes (GivesAndTells (DoesClearMask first mask) (Tells Ordinary) told.old told.new result)
            self.old self.new };
}

impl MaskCalls for Member {
    #[inline(always)]
    fn clear_mask(&mut self, first: u32, mask: u64, told: &mut ToldHands) -> i32 {
        let tags = &self.shared.tags;
        match tags.clear_mask_quietly(&mut self.hand, first, mask) {
            Ok(()) => self.look_and_tell(Kind::Ordinary, mask.count_ones(), told),
            Err(fault) => fault_code(fault),
        }
    }
}

impl MaskCalls for CachedMember {
    #[inline(never)]
    fn clear_mask(&mut self, first: u32, mask: u64, told: &mut ToldHands) -> i32 {
        let tags = &self.shared.tags;
        let given = self.cache.clear_mask_quietly(tags, first, mask);
        self.end_giving(given, Kind::Ordinary, told)
    }
}

#[unsafe(no_mangle)]
pub extern "C" fn tags_clear_mask(
    hand: &mut Handle,
    first: u32,
    mask: u64,
    told: &mut ToldHands,
) -> i32
    ensures { TellsBy (GivesAndTells (DoesClearMask first mask) (Tells Ordinary)) told.old told.new result
        hand.old.object.value hand.new.object.value }
{
    on_hand!(hand.clear_mask(first, mask, told))
}
