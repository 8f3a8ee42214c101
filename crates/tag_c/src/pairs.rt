//! Two calls in one, through the handle of a hand: a get with a write, and a read with a clear. Each is described in
//! tags.h.
ghost use Rattle.std.specs.Prelude.{◌≡◌};
ghost use Rattle.tag_pool.specs.declared.kind.Kind.TheVariants.{Ordinary};
ghost use Rattle.tag_c.specs.Calls.{TellsBy};
ghost use Rattle.tag_c.specs.Codes.{IsRefusal};
ghost use Rattle.tag_c.specs.Pairs.{DoesGetWrite, DoesReadClear};
ghost use Rattle.tag_c.specs.Telling.{GetsTag, GivesAndTells, Tells, TellsOfKind};

use crate::any_hand::{AnyHand, on_hand};
use crate::bell::ToldHands;
use crate::cached::CachedMember;
use crate::codes::{answer_and_left, get_code};
use crate::handle::Handle;
use crate::member::Member;
use crate::status::fault_code;
use crate::telling::TellingCalls;
use tag_pool::Kind;

/// Two calls in one.
trait PairCalls: AnyHand {
    /// Takes a free ordinary tag, writes its slot, and returns the tag. It tells others of those that it left free.
    fn get_write(&mut self, value: u64, told: &mut ToldHands) -> i32
        ensures { Self.changes
            (GetsTag (DoesGetWrite value) (Tells Ordinary) told.old told.new result) self.old self.new };

    /// Reads the slot of a held tag into `value`, gives the tag back, and tells others of it.
    fn read_clear(&mut self, tag: u32, value: &mut u64, told: &mut ToldHands) -> i32
        ensures calls { Self.changes
            (GivesAndTells (DoesReadClear tag value.new) (TellsOfKind tag) told.old told.new result)
            self.old self.new }
        ensures kept { IsRefusal result → value.new ≡ value.old };
}

impl PairCalls for Member {
    #[inline(always)]
    fn get_write(&mut self, value: u64, told: &mut ToldHands) -> i32 {
        let found = self.shared.tags.get_quietly(&mut self.hand);
        let (answer, left) = answer_and_left(found);
        if let Ok(Some(tag)) = answer {
            // The hand has just won the tag, so the write is not refused.
            let _ = self.shared.tags.write(&mut self.hand, tag, value);
        }
        self.look_after(Kind::Ordinary, left, get_code(answer), told)
    }

    #[inline(always)]
    fn read_clear(&mut self, tag: u32, value: &mut u64, told: &mut ToldHands) -> i32 {
        let found = match self.shared.tags.read(&mut self.hand, tag) {
            Ok(found) => found,
            Err(fault) => return fault_code(fault),
        };
        *value = found;
        // The hand has just read the tag's slot, so it holds the tag, and the clear needs no test.
        self.shared.tags.clear_held_quietly(&mut self.hand, tag);
        match self.shared.tags.kind(tag) {
            Kind::Ordinary => self.look_and_tell(Kind::Ordinary, 1, told),
            Kind::Reserved => self.look_and_tell(Kind::Reserved, 1, told),
        }
    }
}

impl PairCalls for CachedMember {
    #[inline(never)]
    fn get_write(&mut self, value: u64, told: &mut ToldHands) -> i32 {
        let found = self.cache.get_quietly(&self.shared.tags);
        let (answer, left) = answer_and_left(found);
        if let Ok(Some(tag)) = answer {
            // The hand has just won the tag, so the write is not refused.
            let _ = self.cache.write(&self.shared.tags, tag, value);
        }
        self.look_after(Kind::Ordinary, left, get_code(answer), told)
    }

    #[inline(never)]
    fn read_clear(&mut self, tag: u32, value: &mut u64, told: &mut ToldHands) -> i32 {
        let found = match self.cache.read(&self.shared.tags, tag) {
            Ok(found) => found,
            Err(fault) => return fault_code(fault),
        };
        *value = found;
        let given = self.cache.clear_quietly(&self.shared.tags, tag);
        let kind = self.shared.tags.kind(tag);
        self.end_giving(given, kind, told)
    }
}

#[unsafe(no_mangle)]
pub extern "C" fn tags_get_write(hand: &mut Handle, value: u64, told: &mut ToldHands) -> i32
    ensures { TellsBy (GetsTag (DoesGetWrite value) (Tells Ordinary)) told.old told.new result
        hand.old.object.value hand.new.object.value }
{
    on_hand!(hand.get_write(value, told))
}

#[unsafe(no_mangle)]
pub extern "C" fn tags_read_clear(
    hand: &mut Handle,
    tag: u32,
    value: &mut u64,
    told: &mut ToldHands,
) -> i32
    ensures calls { TellsBy (GivesAndTells (DoesReadClear tag value.new) (TellsOfKind tag)) told.old told.new result
        hand.old.object.value hand.new.object.value }
    ensures kept { IsRefusal result → value.new ≡ value.old }
{
    on_hand!(hand.read_clear(tag, value, told))
}
