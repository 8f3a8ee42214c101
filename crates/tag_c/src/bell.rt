//! Who sees to those that wait by the bell, through the handle of a hand. The C files of the library make these calls: whoever
//! they say was told is theirs to wake. Whether a hand was told only tests ask.
ghost use Rattle.std.specs.Prelude.{◌≡◌};
ghost use Rattle.tag_pool.specs.declared.kind.Kind.TheVariants.{Ordinary, Reserved};
ghost use Rattle.tag_c.specs.Bell.{told_of, DoesSeeTo, SaysIfTold, SaysNumber};
ghost use Rattle.tag_c.specs.Calls.{CallsBy};
ghost use Rattle.tag_c.specs.Codes.{IsRefusal};

use crate::any_hand::{AnyHand, on_hand};
use crate::cached::CachedMember;
use crate::handle::Handle;
use crate::member::Member;
use tag_pool::{Kind, Numbered, Told};

/// The hands that a call told, a bit for the number of each: 1 is told.
#[repr(C)]
#[derive(Clone, Copy, Debug, PartialEq, Eq)]
pub struct ToldHands {
    /// Those that it told as sleepers.
    pub sleepers: u64,
    /// Those that it told as listeners.
    pub listeners: u64,
}

impl ToldHands {
    pub(crate) fn of(told: Told) -> ToldHands
        ensures { told_of result ≡ told }
    {
        ToldHands {
            sleepers: told.sleepers(),
            listeners: told.listeners(),
        }
    }
}

/// Calls of those who see to others that wait.
trait BellCalls: AnyHand {
    /// Looks once whether the hand was told: returns 1 if it was, or does not wait for an ordinary tag, and 0 if not.
    fn is_told(&mut self) -> i32
        ensures { Self.changes (SaysIfTold result) self.old self.new };

    /// Sees to all that the hand has to see to, after it gave so many tags of this kind back, and fills in whom it told.
    fn see_to(&mut self, kind: Kind, freed: u32, told: &mut ToldHands) -> i32
        ensures { Self.changes (DoesSeeTo kind freed told.new result) self.old self.new };

    /// Returns the number of the hand, below 64.
    fn number(&mut self) -> i32
        ensures { Self.changes (SaysNumber result) self.old self.new };
}

impl BellCalls for Member {
    #[inline(always)]
    fn is_told(&mut self) -> i32 {
        i32::from(self.shared.tags.is_told(&mut self.hand, Kind::Ordinary))
    }

    #[inline(always)]
    fn see_to(&mut self, kind: Kind, freed: u32, told: &mut ToldHands) -> i32 {
        *told = ToldHands::of(self.shared.tags.see_to(&mut self.hand, kind, freed));
        0
    }

    #[inline(always)]
    fn number(&mut self) -> i32 {
        self.hand.number() as i32
    }
}

impl BellCalls for CachedMember {
    #[inline(always)]
    fn is_told(&mut self) -> i32 {
        i32::from(self.cache.is_told(&self.shared.tags, Kind::Ordinary))
    }

    #[inline(always)]
    fn see_to(&mut self, kind: Kind, freed: u32, told: &mut ToldHands) -> i32 {
        *told = ToldHands::of(self.cache.see_to(&self.shared.tags, kind, freed));
        0
    }

    #[inline(always)]
    fn number(&mut self) -> i32 {
        self.cache.number() as i32
    }
}

/// A hand waits as one waiter at a time, so the second argument makes no difference.
#[unsafe(no_mangle)]
pub extern "C" fn tags_is_told(hand: &mut Handle, _listens: u32) -> i32
    ensures { CallsBy (SaysIfTold result) result hand.old.object.value hand.new.object.value }
{
    on_hand!(hand.is_told())
}

#[unsafe(no_mangle)]
pub extern "C" fn tags_see_to(hand: &mut Handle, freed: u32, told: &mut ToldHands) -> i32
    ensures calls { CallsBy (DoesSeeTo Ordinary freed told.new result) result hand.old.object.value hand.new.object.value }
    ensures kept { IsRefusal result → told.new ≡ told.old }
{
    on_hand!(hand.see_to(Kind::Ordinary, freed, told))
}

#[unsafe(no_mangle)]
pub extern "C" fn tags_see_to_reserved(hand: &mut Handle, freed: u32, told: &mut ToldHands) -> i32
    ensures calls { CallsBy (DoesSeeTo Reserved freed told.new result) result hand.old.object.value hand.new.object.value }
    ensures kept { IsRefusal result → told.new ≡ told.old }
{
    on_hand!(hand.see_to(Kind::Reserved, freed, told))
}

#[unsafe(no_mangle)]
pub extern "C" fn tags_number(hand: &mut Handle) -> i32
    ensures { CallsBy (SaysNumber result) result hand.old.object.value hand.new.object.value }
{
    on_hand!(hand.number())
}
