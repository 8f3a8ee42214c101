//! The wake walk: moves waiters from waiting to granted, group by group.
ghost use Rattle.std.specs.Prelude.{◌≡◌, ◌+◌, ◌^◌, ◌<◌, ◌≤◌, ◌∷◌, length, IsTrue, IsFalse};
ghost use Rattle.wake_book.specs.Waits.{waiting};
ghost use Rattle.wake_book.specs.Walks.{VisitsGroup, IsWalk, walk_steps};
ghost use Rattle.wake_book.specs.Grants.{AreGrantsOf};
ghost use Rattle.wake_book.specs.Groups.{IsWaiterOf, steps_of, moved_of, StandsSilent, MovesMore, Loses};
ghost use Rattle.wake_book.specs.declared.steps.GroupStep.TheVariants.{Grant, Store};

use crate::grants::{Grants, NO_GRANTS};
use crate::group_plays::{GrantSome, StoreIndex};
use crate::groups::{GROUPS, Groups, INDEX, WAITING, Waiter, group_spot};

/// Exchanges that a walk may lose in one group before it goes on to the next.
const TRIES: u32 = 4;

/// The most waiters that one waiter may move to granted in all.
const MAX_MOVED: u64 = 1 << 56;

impl Groups {
    /// Moves up to `nr` waiters, 1 to 8, from waiting to granted, and returns how many it moved in each group. Like
    /// `__sbitmap_queue_wake_up` (lib/sbitmap.c) it visits the groups in cyclic order from the wake index, each at most
    /// once. It wakes no sleeper: the caller wakes as many in each group with `ring`, or by other means. A waiter that
    /// could exceed 2^56 moves in all makes no step and moves none. This adds at most 67 steps to the waiter's list;
    /// loads that are not recorded as steps are not counted.
    pub fn walk(&self, waiter: &mut Waiter, nr: u32) -> Grants
        requires groups { IsWaiterOf self.now waiter.old }
        requires within { (1 ≤ nr) × (nr ≤ 8) }
        ensures groups { IsWaiterOf self.now waiter.new × StandsSilent waiter.old waiter.new }
        ensures most { result.woken ≤ nr }
        ensures moved { moved_of waiter.new ≡ moved_of waiter.old + result.woken }
        ensures lawful { IsWalk nr (steps_of waiter.old) (steps_of waiter.new) result.woken }
        ensures grants { AreGrantsOf result (steps_of waiter.old) (steps_of waiter.new) }
        ensures bound { length (steps_of waiter.new) ≤ walk_steps + length (steps_of waiter.old) }
    {
        if waiter.moved + nr as u64 > MAX_MOVED || self.active(waiter) == 0 {
            return NO_GRANTS;
        }
        let mut group = self.index(waiter);
        let mut left = nr;
        let mut visits = 0u32;
        let mut in_group = [0; GROUPS as usize];
        while left > 0 && visits < GROUPS {
            let moved = self.visit(waiter, group, left);
            in_group[group as usize] += moved as u8;
            left -= moved;
            group = (group + 1) % GROUPS;
            visits += 1;
        }
        self.store_index(waiter, group);
        Grants {
            woken: nr - left,
            in_group,
        }
    }

    /// Moves up to `most` waiters of a group from waiting to granted, and returns how many.
    fn visit(&self, waiter: &mut Waiter, group: u32, most: u32) -> u32
        requires groups { IsWaiterOf self.now waiter.old }
        requires within { (group < 8) × (waiter.old.moved + most ≤ 2 ^ 56) }
        ensures groups { IsWaiterOf self.now waiter.new × StandsSilent waiter.old waiter.new }
        ensures moved { (result ≤ most) × (waiter.new.moved ≡ waiter.old.moved + result) }
        ensures visit { VisitsGroup group most (steps_of waiter.old) (steps_of waiter.new) result }
    {
        for _ in 0..TRIES {
            let found = self.look_group(waiter, group);
            let waiting = found / WAITING;
            if waiting == 0 {
                return 0;
            }
            let count = waiting.min(most as u64);
            if self.grant(waiter, group, found, count) {
                return count as u32;
            }
        }
        0
    }

    /// Moves `count` waiters from waiting to granted, if the group's word is still `found`.
    fn grant(&self, waiter: &mut Waiter, group: u32, found: u64, count: u64) -> bool
        requires groups { IsWaiterOf self.now waiter.old }
        requires within { (group < 8) × (count ≤ waiting found) × (waiter.old.moved + count ≤ 2 ^ 56) }
        ensures groups { IsWaiterOf self.now waiter.new × StandsSilent waiter.old waiter.new }
        ensures moved { IsTrue result → MovesMore count waiter.old waiter.new }
        ensures won { IsTrue result → steps_of waiter.new ≡ Grant group found count found ∷ steps_of waiter.old }
        ensures kept { IsFalse result → waiter.new.moved ≡ waiter.old.moved }
        ensures lost { IsFalse result → Loses found (Grant group found count) waiter.old waiter.new }
    {
        let new = found - WAITING * count + count;
        let seen = self
            .table
            .shared
            .compare_exchange::<GrantSome>(&mut waiter.seat, group_spot(group), found, new);
        if seen != found {
            return false;
        }
        waiter.moved += count;
        true
    }

    fn store_index(&self, waiter: &mut Waiter, group: u32)
        requires groups { IsWaiterOf self.now waiter.old }
        requires within { group < 8 }
        ensures groups { IsWaiterOf self.now waiter.new × StandsSilent waiter.old waiter.new }
        ensures step { steps_of waiter.new ≡ Store group ∷ steps_of waiter.old }
    {
        self.table
            .shared
            .store::<StoreIndex>(&mut waiter.seat, INDEX, group as u64);
    }
}
