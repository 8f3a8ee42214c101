//! What becomes of the wakeups that a call granted: who wakes the sleepers, and what the call answers.
ghost use Rattle.std.specs.Prelude.{◌≡◌, ◌≤◌};
ghost use Rattle.wake_book.specs.Grants.{WokenBy};
ghost use Rattle.wake_book.specs.Groups.{GrantsUnrung, RingsGranted, RingsNobody, RingsOnce, steps_of};
ghost use Rattle.wake_book.specs.declared.rings.Rung.TheVariants.{Granted};

use crate::grants::{Grants, NO_GRANTS};
use crate::groups::{Groups, Waiter};

/// A way to pass on the wakeups that a call granted.
pub trait Waking {
    ghost use Rattle.std.specs.Prelude.{◌≡◌, ℕ};
    ghost use Rattle.wake_book.specs.declared.grants.Grants.{Grants};
    ghost use Rattle.wake_book.specs.declared.grants.TheConstants.{NO_GRANTS};
    ghost use Rattle.wake_book.specs.declared.groups.Waiter.{Waiter};
    ghost use Rattle.wake_book.specs.Groups.{GrantsUnrung, IsWaiterOf, StandsAsBefore, steps_of};

    /// What the call answers.
    type Answer: Copy;

    // How many waiters were granted a wakeup.
    ghost woken: { Self.Answer → ℕ };

    // The answer is about the grants that the waiter's steps made between these two moments.
    ghost tells: { Self.Answer → Waiter → Waiter → Type 0 };

    // What was done about grants that were passed on between these two moments of the waiter.
    ghost passes: { Grants → Waiter → Waiter → Type 0 };

    /// Returns the answer of a call that granted nobody a wakeup.
    fn nobody() -> Self::Answer
        ensures woken { woken result ≡ 0 }
        ensures tells { (old new : Waiter) → GrantsUnrung NO_GRANTS old new → tells result old new };

    /// Passes on the grants of the latest call, once, and returns the answer. This makes no step.
    fn tell(groups: &Groups, waiter: &mut Waiter, grants: Grants) -> Self::Answer
        requires groups { IsWaiterOf groups.now waiter.old }
        ensures groups { IsWaiterOf groups.now waiter.new }
        ensures woken { woken result ≡ grants.woken }
        ensures passes { passes grants waiter.old waiter.new }
        ensures none { grants.woken ≡ 0 → waiter.new ≡ waiter.old }
        ensures steps { steps_of waiter.new ≡ steps_of waiter.old }
        ensures stands { StandsAsBefore waiter.old waiter.new }
        ensures tells { (before : Waiter) → GrantsUnrung grants before waiter.old → tells result before waiter.new };
}

/// Wakes one sleeper for each grant, in its group, and answers how many waiters were granted a wakeup.
pub struct Ring;

impl Waking for Ring {
    type Answer = u32;

    ghost woken = { λ woken. woken };

    ghost tells = { λ woken. RingsGranted };

    ghost passes = { λ grants old new. 1 ≤ grants.woken → RingsOnce (Granted grants) old new };

    #[inline]
    fn nobody() -> u32 {
        0
    }

    #[inline]
    fn tell(groups: &Groups, waiter: &mut Waiter, grants: Grants) -> u32 {
        if grants.woken != 0 {
            groups.ring(waiter, grants);
        }
        grants.woken
    }
}

/// Wakes no sleeper, and answers how many waiters of each group were granted a wakeup. Waking them is left to the caller,
/// and no code that does it is pulled in.
pub struct Report;

impl Waking for Report {
    type Answer = Grants;

    ghost woken = { λ grants. grants.woken };

    ghost tells = { GrantsUnrung };

    ghost passes = { λ grants old new. new ≡ old };

    #[inline]
    fn nobody() -> Grants {
        NO_GRANTS
    }

    #[inline]
    fn tell(groups: &Groups, waiter: &mut Waiter, grants: Grants) -> Grants {
        grants
    }
}

/// Like `Report`, but answers only how many waiters were granted a wakeup, for callers that wake threads by other means
/// and need not know their groups.
pub struct Count;

impl Waking for Count {
    type Answer = u32;

    ghost woken = { λ woken. woken };

    ghost tells = { λ woken old new. WokenBy woken (steps_of old) (steps_of new) × RingsNobody old new };

    ghost passes = { λ grants old new. new ≡ old };

    #[inline]
    fn nobody() -> u32 {
        0
    }

    #[inline]
    fn tell(groups: &Groups, waiter: &mut Waiter, grants: Grants) -> u32 {
        grants.woken
    }
}
