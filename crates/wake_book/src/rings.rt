//! Rings, which wake sleepers, and what a waiter's latest ring was for.
ghost use Rattle.wake_book.specs.Groups.{IsWaiterOf, RingsFor};
ghost use Rattle.wake_book.specs.declared.rings.Rung.TheVariants.{Granted, Nudged};

use crate::grants::Grants;
use crate::groups::{GROUPS, Groups, Waiter};
use std::snapshot::Snapshot;

/// Whom a ring was for. Only contracts keep it.
#[derive(Drop)]
pub enum Rung {
    /// One sleeper for each of these grants, in the group of the grant.
    Granted(Grants),
    /// This many sleepers in each group, without a grant.
    Nudged(u64),
}

impl Groups {
    /// Wakes one sleeper of a group for each grant in it, or all of the group if there are fewer. This makes no step.
    #[inline(never)]
    pub fn ring(&self, waiter: &mut Waiter, grants: Grants)
        requires groups { IsWaiterOf self.now waiter.old }
        ensures groups { IsWaiterOf self.now waiter.new }
        ensures rung { RingsFor (Granted grants) waiter.old waiter.new }
    {
        for group in 0..GROUPS as usize {
            for _ in 0..grants.in_group[group] {
                self.bells[group].notify_one();
            }
        }
        waiter.before = Snapshot::of(&waiter.rung);
        waiter.rung = Snapshot::of(&Rung::Granted(grants));
    }

    /// Wakes `count` sleepers in each group, or all of the group if there are fewer, and grants nobody anything. This
    /// makes no step.
    #[inline(never)]
    pub fn nudge(&self, waiter: &mut Waiter, count: u64)
        requires groups { IsWaiterOf self.now waiter.old }
        ensures groups { IsWaiterOf self.now waiter.new }
        ensures rung { RingsFor (Nudged count) waiter.old waiter.new }
    {
        for group in 0..GROUPS as usize {
            for _ in 0..count {
                self.bells[group].notify_one();
            }
        }
        waiter.before = Snapshot::of(&waiter.rung);
        waiter.rung = Snapshot::of(&Rung::Nudged(count));
    }
}
