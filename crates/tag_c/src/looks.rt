//! Reports which tags are held or busy, and the sizes of a set, through the handle of a hand. Each call is described in
//! tags.h.
ghost use Rattle.std.specs.Prelude.{◌≡◌};
ghost use Rattle.tag_c.specs.Calls.{CallsBy};
ghost use Rattle.tag_c.specs.Codes.{IsRefusal};
ghost use Rattle.tag_c.specs.Views.{SaysHeld, SaysBusy, SaysShown};

use crate::any_hand::{AnyHand, on_hand};
use crate::cached::CachedMember;
use crate::codes::number_code;
use crate::handle::Handle;
use crate::member::Member;
use crate::status::Status;
use tag_pool::{Kind, TagFault};

/// The sizes of a set, and sums over its words, each of which was loaded once.
#[repr(C)]
#[derive(Clone, Copy, Debug, PartialEq, Eq)]
pub struct Sizes {
    /// Number of tags.
    pub depth: u32,
    /// Tags found taken (their bit is 1) and not set aside.
    pub busy: u32,
    /// Tags found set aside.
    pub cleared: u32,
    /// Bits per word. The last word can have fewer.
    pub bits_per_word: u32,
    /// Number of words.
    pub words: u32,
}

/// Calls that report.
trait LookCalls: AnyHand {
    /// Returns 1 if the tag is held, and not kept, and 0 if not.
    fn holds(&mut self, tag: u32) -> i32
        ensures { Self.changes (SaysHeld tag result) self.old self.new };

    /// Returns how many tags of both sets are busy. Bit `tag % 64` of `into[tag / 64]` becomes 1 for each of them, and
    /// every other bit becomes 0.
    fn busy(&mut self, into: &mut [u64]) -> i32
        ensures calls { Self.changes (SaysBusy into.old into.new result) self.old self.new }
        ensures kept { IsRefusal result → into.new ≡ into.old };

    /// Writes the sizes of the ordinary set if `kind` is 0, and of the reserved set if it is 1.
    fn show(&mut self, kind: u32, sizes: &mut Sizes) -> i32
        ensures calls { Self.changes (SaysShown kind sizes.new result) self.old self.new }
        ensures kept { IsRefusal result → sizes.new ≡ sizes.old };
}

impl LookCalls for Member {
    #[inline(always)]
    fn holds(&mut self, tag: u32) -> i32 {
        if tag >= self.shared.total {
            return Status::Refused(TagFault::NoSuchTag).code();
        }
        if self.hand.holds(tag) { 1 } else { 0 }
    }

    #[inline(always)]
    fn busy(&mut self, into: &mut [u64]) -> i32 {
        if (self.shared.total as usize).div_ceil(u64::BITS as usize) > into.len() {
            return Status::TooSmall.code();
        }
        number_code(self.shared.tags.busy(&mut self.hand, into))
    }

    #[inline(always)]
    fn show(&mut self, kind: u32, sizes: &mut Sizes) -> i32 {
        let kind = match kind {
            0 => Kind::Ordinary,
            1 => Kind::Reserved,
            _ => return Status::BadKind.code(),
        };
        let shown = self.shared.tags.show(&mut self.hand, kind);
        *sizes = Sizes {
            depth: shown.depth,
            busy: shown.busy,
            cleared: shown.cleared,
            bits_per_word: shown.bits_per_word,
            words: shown.map_nr,
        };
        0
    }
}

impl LookCalls for CachedMember {
    #[inline(never)]
    fn holds(&mut self, tag: u32) -> i32 {
        if tag >= self.shared.total {
            return Status::Refused(TagFault::NoSuchTag).code();
        }
        if self.cache.holds(tag) { 1 } else { 0 }
    }

    #[inline(never)]
    fn busy(&mut self, into: &mut [u64]) -> i32 {
        if (self.shared.total as usize).div_ceil(u64::BITS as usize) > into.len() {
            return Status::TooSmall.code();
        }
        number_code(self.cache.busy(&self.shared.tags, into))
    }

    #[inline(never)]
    fn show(&mut self, kind: u32, sizes: &mut Sizes) -> i32 {
        let kind = match kind {
            0 => Kind::Ordinary,
            1 => Kind::Reserved,
            _ => return Status::BadKind.code(),
        };
        let shown = self.cache.show(&self.shared.tags, kind);
        *sizes = Sizes {
            depth: shown.depth,
            busy: shown.busy,
            cleared: shown.cleared,
            bits_per_word: shown.bits_per_word,
            words: shown.map_nr,
        };
        0
    }
}

#[unsafe(no_mangle)]
pub extern "C" fn tags_holds(hand: &mut Handle, tag: u32) -> i32
    ensures { CallsBy (SaysHeld tag result) result hand.old.object.value hand.new.object.value }
{
    on_hand!(hand.holds(tag))
}

#[unsafe(no_mangle)]
pub extern "C" fn tags_busy(hand: &mut Handle, into: &mut [u64]) -> i32
    ensures calls { CallsBy (SaysBusy into.old into.new result) result
        hand.old.object.value hand.new.object.value }
    ensures kept { IsRefusal result → into.new ≡ into.old }
{
    on_hand!(hand.busy(into))
}

#[unsafe(no_mangle)]
pub extern "C" fn tags_show(hand: &mut Handle, kind: u32, sizes: &mut Sizes) -> i32
    ensures calls { CallsBy (SaysShown kind sizes.new result) result
        hand.old.object.value hand.new.object.value }
    ensures kept { IsRefusal result → sizes.new ≡ sizes.old }
{
    on_hand!(hand.show(kind, sizes))
}
