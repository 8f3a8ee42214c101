//! How a waiter enters a group, looks at it, and leaves it.
ghost use Rattle.std.specs.Prelude.{◌≡◌, ℕ, ◌+◌, ◌%◌, ◌<◌, ◌≤◌, ◌∷◌, length, IsTrue, IsFalse, Some, None, IsSome, IfSome, IfNone};
ghost use Rattle.wake_book.specs.Waits.{active_at, index_at, group_at, granted, waiting};
ghost use Rattle.wake_book.specs.Groups.{IsWaiterOf, steps_of, number_of, standing_of, wait_index_of, moved_of};
ghost use Rattle.wake_book.specs.Groups.{StandsSilent, RingsNobody, LeavesAs, IdlesOnce};
ghost use Rattle.wake_book.specs.Walks.{IsWayOut};
ghost use Rattle.wake_book.specs.declared.steps.GroupStep.TheVariants.{Look, Raise, Enter};

use crate::group_plays::{
    EnterGroup, LeaveGroup, LowerActive, RaiseActive, SeeActive, SeeGroup, SeeIndex,
};
use crate::groups::{ACTIVE, GROUPS, Groups, INDEX, WAITING, Waiter, group_spot};
use std::sync::Wait;

/// How a waiter left its group.
#[derive(Clone, Copy, Debug, PartialEq, Eq)]
pub enum Left {
    /// It used a grant of its group.
    Woken,
    /// It found no grant in its group.
    Unwoken,
}

/// How a waiter leaves a group with this word, and the word without it: it uses a grant if there is one, and otherwise
/// is no longer waiting.
fn way_out(found: u64) -> (Left, u64)
    requires { granted found ≡ 0 → 1 ≤ waiting found }
    ensures { IsWayOut found result.0 result.1 }
{
    if found % WAITING > 0 {
        (Left::Woken, found - 1)
    } else {
        (Left::Unwoken, found - WAITING)
    }
}

impl Groups {
    /// Loads the active count: the number of waiters that have raised it and not lowered it yet. It is at least 1 if
    /// this waiter is in a group.
    pub fn active(&self, waiter: &mut Waiter) -> u64
        requires groups { IsWaiterOf self.now waiter.old }
        ensures groups { IsWaiterOf self.now waiter.new × StandsSilent waiter.old waiter.new }
        ensures step { steps_of waiter.new ≡ Look active_at result ∷ steps_of waiter.old }
        ensures own { IsSome (standing_of waiter.old) → 1 ≤ result }
    {
        self.table
            .shared
            .load::<SeeActive>(&mut waiter.seat, ACTIVE)
    }

    /// Loads the wake index: the group that the next walk visits first, 0 to 7.
    pub fn index(&self, waiter: &mut Waiter) -> u32
        requires groups { IsWaiterOf self.now waiter.old }
        ensures groups { IsWaiterOf self.now waiter.new × StandsSilent waiter.old waiter.new }
        ensures step { steps_of waiter.new ≡ Look index_at result ∷ steps_of waiter.old }
        ensures within { result < 8 }
    {
        self.table.shared.load::<SeeIndex>(&mut waiter.seat, INDEX) as u32
    }

    /// Loads the active count without a waiter. The load is in no list of steps, so no clause says what it finds.
    pub fn peek_active(&self) -> u64 {
        self.table.shared.peek(ACTIVE)
    }

    /// Loads the wake index without a waiter. The load is in no list of steps, so no clause says what it finds.
    pub fn peek_index(&self) -> u32
        ensures { result < 8 }
    {
        (self.table.shared.peek(INDEX) % u64::from(GROUPS)) as u32
    }

    /// Returns the group that the waiter is in, 0 to 7. This makes no step.
    pub fn standing(waiter: &Waiter) -> Option<u32>
        ensures { result ≡ standing_of waiter.now }
    {
        let Waiter { standing, .. } = waiter;
        *standing
    }

    /// Raises the active count, enters the group of the waiter's wait index, advances that index by one (modulo 8), and
    /// returns the group. This adds exactly two steps to the waiter's list.
    pub fn enter(&self, waiter: &mut Waiter) -> u32
        requires groups { IsWaiterOf self.now waiter.old }
        requires out { standing_of waiter.old ≡ None }
        ensures groups { IsWaiterOf self.now waiter.new × (number_of waiter.new ≡ number_of waiter.old) }
        ensures group { (result ≡ wait_index_of waiter.old) × (standing_of waiter.new ≡ Some result) }
        ensures next { wait_index_of waiter.new ≡ (wait_index_of waiter.old + 1) % 8 }
        ensures steps { (active : ℕ) × (found : ℕ) × (steps_of waiter.new ≡ Enter result found ∷ Raise active ∷ steps_of waiter.old) }
        ensures silent { RingsNobody waiter.old waiter.new }
        ensures bound { length (steps_of waiter.new) ≡ 2 + length (steps_of waiter.old) }
    {
        let group = waiter.next;
        self.table
            .shared
            .fetch_add::<RaiseActive>(&mut waiter.seat, ACTIVE, 1);
        self.table
            .shared
            .fetch_add::<EnterGroup>(&mut waiter.seat, group_spot(group), WAITING);
        waiter.standing = Some(group);
        waiter.next = (group + 1) % GROUPS;
        group
    }

    /// Leaves the waiter's group and lowers the active count. It uses a grant if it finds one there, whichever waiter
    /// the grant was made for, and otherwise withdraws. A lost exchange is tried again, and no clause bounds the tries.
    pub fn leave<R: Wait>(&self, rt: &R, waiter: &mut Waiter) -> Left
        requires groups { IsWaiterOf self.now waiter.old }
        requires stands { IsSome (standing_of waiter.old) }
        ensures groups { IsWaiterOf self.now waiter.new × (number_of waiter.new ≡ number_of waiter.old) }
        ensures out { (standing_of waiter.new ≡ None) × (wait_index_of waiter.new ≡ wait_index_of waiter.old) }
        ensures moved { moved_of waiter.new ≡ moved_of waiter.old }
        ensures left { LeavesAs waiter.old waiter.new result }
        ensures silent { RingsNobody waiter.old waiter.new }
    {
        for _ in rt.forever() {
            if let Some(left) = self.try_leave(waiter) {
                return left;
            }
        }
        unreachable!()
    }

    /// Like `leave`, but makes one try only: one look and one exchange. `None` means that the group's word changed
    /// between the two, and that the waiter is still in the group.
    pub fn try_leave(&self, waiter: &mut Waiter) -> Option<Left>
        requires groups { IsWaiterOf self.now waiter.old }
        requires stands { IsSome (standing_of waiter.old) }
        ensures groups { IsWaiterOf self.now waiter.new × (number_of waiter.new ≡ number_of waiter.old) }
        ensures index { wait_index_of waiter.new ≡ wait_index_of waiter.old }
        ensures moved { moved_of waiter.new ≡ moved_of waiter.old }
        ensures out { IfSome result (λ _. standing_of waiter.new ≡ None) }
        ensures left { IfSome result (λ left. LeavesAs waiter.old waiter.new left) }
        ensures stays { IfNone result (standing_of waiter.new ≡ standing_of waiter.old) }
        ensures idle { IfNone result (IdlesOnce waiter.old waiter.new) }
        ensures silent { RingsNobody waiter.old waiter.new }
    {
        let Some(group) = waiter.standing else {
            unreachable!()
        };
        let found = self.look_group(waiter, group);
        let (left, next) = way_out(found);
        let table = &self.table.shared;
        let seen = table.compare_exchange::<LeaveGroup>(
            &mut waiter.seat,
            group_spot(group),
            found,
            next,
        );
        if seen != found {
            return None;
        }
        table.fetch_sub::<LowerActive>(&mut waiter.seat, ACTIVE, 1);
        waiter.standing = None;
        Some(left)
    }

    /// Loads the word of a group. If the waiter is in that group and finds no grant, it finds somebody waiting.
    pub(crate) fn look_group(&self, waiter: &mut Waiter, group: u32) -> u64
        requires groups { IsWaiterOf self.now waiter.old }
        requires within { group < 8 }
        ensures groups { IsWaiterOf self.now waiter.new × StandsSilent waiter.old waiter.new }
        ensures step { steps_of waiter.new ≡ Look (group_at group) result ∷ steps_of waiter.old }
        ensures waits { standing_of waiter.old ≡ Some group → granted result ≡ 0 → 1 ≤ waiting result }
        ensures moved { waiter.new.moved ≡ waiter.old.moved }
    {
        self.table
            .shared
            .load::<SeeGroup>(&mut waiter.seat, group_spot(group))
    }
}
