//! How a call that gave tags back, or left some free, sees to them: it tells others that wait, and fills in whom. C wakes
//! them.
ghost use Rattle.std.specs.Prelude.{◌≡◌, ◌<ℤ◌, pos};
ghost use Rattle.tag_pool.specs.declared.kind.Kind.TheVariants.{Ordinary};
ghost use Rattle.tag_c.specs.Calls.{CacheCalls, HandCalls};
ghost use Rattle.tag_c.specs.Telling.{Answers, Ends, EndsGiving, LooksAfter, Sees, Tells, both, flagged};

use crate::any_hand::AnyHand;
use crate::bell::ToldHands;
use crate::cached::CachedMember;
use crate::member::Member;
use crate::status::fault_code;
use tag_pool::{Kind, MAX_CALLERS, TagFault};

/// The flag of a call that filled in whom it told: it is added to what the call returns otherwise, a smaller number.
pub const TOLD: i32 = 1 << 30;

/// Adds the flag.
#[inline]
fn flagged(number: i32) -> i32
    requires { number <ℤ TOLD }
    ensures { result ≡ flagged number }
{
    number + TOLD
}

impl ToldHands {
    /// Returns those of both.
    #[inline]
    fn with(self, other: ToldHands) -> ToldHands
        ensures { result ≡ both self other }
    {
        ToldHands {
            sleepers: self.sleepers | other.sleepers,
            listeners: self.listeners | other.listeners,
        }
    }

    /// Fills in whom a call told, and returns its number with the flag; or the number alone if that is nobody.
    #[inline]
    pub(crate) fn fill(&mut self, told: ToldHands, number: i32) -> i32
        requires { number <ℤ TOLD }
        ensures { Answers number told self.old self.new result }
    {
        if told.sleepers == 0 && told.listeners == 0 {
            return number;
        }
        *self = told;
        flagged(number)
    }
}

/// Calls that end others.
pub(crate) trait TellingCalls: AnyHand {
    /// Sees to so many tags of this kind, and to what the hand keeps. Returns whom this told.
    fn see(&mut self, kind: Kind, freed: u32) -> ToldHands
        ensures { Self.changes (Sees kind freed result) self.old self.new };

    /// Ends a call that gave so many tags of this kind back. Returns 0, with the flag if anybody was told.
    fn tell(&mut self, kind: Kind, freed: u32, told: &mut ToldHands) -> i32
        ensures { Self.changes (Ends (Sees kind freed) (pos 0) told.old told.new result) self.old self.new };

    /// Ends a get that left so many tags of this kind free. Returns its number, with the flag if it left any, whether or not
    /// anybody waits for one: C looks for lists of tags too.
    fn look_after(&mut self, kind: Kind, left: u64, number: i32, told: &mut ToldHands) -> i32
        requires { number <ℤ TOLD }
        ensures { Self.changes (LooksAfter (Tells kind) left number told.old told.new result) self.old self.new };
}

impl TellingCalls for Member {
    #[inline]
    fn see(&mut self, kind: Kind, freed: u32) -> ToldHands {
        ToldHands::of(self.shared.tags.see_to(&mut self.hand, kind, freed))
    }

    // It is out of line and called last: a call that finds nobody waiting then needs no memory, and saves no registers.
    #[inline(never)]
    fn tell(&mut self, kind: Kind, freed: u32, told: &mut ToldHands) -> i32 {
        let whom = self.see(kind, freed);
        told.fill(whom, 0)
    }

    #[inline]
    fn look_after(&mut self, kind: Kind, left: u64, number: i32, told: &mut ToldHands) -> i32 {
        if left == 0 {
            return number;
        }
        *told = self.see(kind, left.min(u64::from(MAX_CALLERS)) as u32);
        flagged(number)
    }
}

impl Member {
    /// Ends a call as `tell` does, if one look finds somebody who waits for a tag of this kind.
    #[inline(always)]
    pub(crate) fn look_and_tell(&mut self, kind: Kind, freed: u32, told: &mut ToldHands) -> i32
        ensures { HandCalls (Ends (Tells kind freed) (pos 0) told.old told.new result) self.old self.new }
    {
        if !self.shared.tags.finds_waiters(&mut self.hand, kind) {
            return 0;
        }
        self.tell(kind, freed, told)
    }
}

impl TellingCalls for CachedMember {
    fn see(&mut self, kind: Kind, freed: u32) -> ToldHands {
        let told = ToldHands::of(self.cache.see_to(&self.shared.tags, kind, freed));
        match kind {
            Kind::Ordinary => told,
            // What it keeps is ordinary.
            Kind::Reserved => {
                let kept = self.cache.see_to(&self.shared.tags, Kind::Ordinary, 0);
                told.with(ToldHands::of(kept))
            }
        }
    }

    #[inline(never)]
    fn tell(&mut self, kind: Kind, freed: u32, told: &mut ToldHands) -> i32 {
        let whom = self.see(kind, freed);
        told.fill(whom, 0)
    }

    #[inline]
    fn look_after(&mut self, kind: Kind, left: u64, number: i32, told: &mut ToldHands) -> i32 {
        if left == 0 {
            return number;
        }
        *told = self.see(kind, left.min(u64::from(MAX_CALLERS)) as u32);
        flagged(number)
    }
}

impl CachedMember {
    /// Ends a call that gave so many ordinary tags back, and may keep some, as `tell` does, if one look finds somebody who
    /// waits for one.
    #[inline(always)]
    pub(crate) fn look_and_tell(&mut self, freed: u32, told: &mut ToldHands) -> i32
        ensures { CacheCalls (Ends (Tells Ordinary freed) (pos 0) told.old told.new result) self.old self.new }
    {
        if !self.cache.finds_waiters(&self.shared.tags, Kind::Ordinary) {
            return 0;
        }
        self.tell(Kind::Ordinary, freed, told)
    }

    /// Ends a call that gave so many tags of this kind back, or was refused.
    #[inline(always)]
    pub(crate) fn end_giving(
        &mut self,
        given: Result<u32, TagFault>,
        kind: Kind,
        told: &mut ToldHands,
    ) -> i32
        ensures { CacheCalls (EndsGiving given (Tells kind) told.old told.new result) self.old self.new }
    {
        match given {
            Ok(freed) => match kind {
                Kind::Ordinary => self.look_and_tell(freed, told),
                Kind::Reserved => self.tell(Kind::Reserved, freed, told),
            },
            Err(fault) => fault_code(fault),
        }
    }
}
