//! Gathers all waiters and closes the groups.
ghost use Rattle.std.specs.Prelude.{◌≡◌, ◌↔◌, [], ◌∷◌, All, IfOk, IfErr, IsOk};
ghost use Rattle.std.specs.Slots.{slots_len, slots_items, IsFull};
ghost use Rattle.sums.specs.Below.{sum_below};
ghost use Rattle.step_ledger.specs.Records.{numbers};
ghost use Rattle.step_ledger.specs.Gather.{HasAll, IsCauseOf};
ghost use Rattle.wake_book.specs.Waits.{granted, groups_width, waiting, word};
ghost use Rattle.wake_book.specs.Groups.{IsWaiterOf, record_of, records_of, numbers_of, waiters_of};
ghost use Rattle.wake_book.specs.Groups.{IsGatheringOf, gathered};
ghost use Rattle.wake_book.specs.Balance.{IsBalanced};

use crate::book_closing::discard;
use crate::groups::{GROUPS, GroupTotals, Groups, WAITING, Waiter, WaiterGathering, group_spot};
use atomic_table::Closed;
use std::alloc::Global;
use step_ledger::{Collect, Gather, GatherCause, all_there, gather_each};

/// The reason why `gather` failed, with the groups and the waiters that were passed in.
#[derive(Drop)]
pub struct GroupsGatherFault {
    pub cause: GatherCause,
    pub groups: Groups,
    /// In the order in which they were passed in.
    pub waiters: Vec<Waiter>,
}

impl Groups {
    /// Closes the groups and returns their totals, if all their waiters are passed in, in any order, even those that
    /// are in a group. Otherwise it names the least missing number and hands everything back. For each waiter but the
    /// first, one load is in no waiter's list.
    pub fn gather(groups: Groups, waiters: Vec<Waiter>) -> Result<GroupTotals, GroupsGatherFault>
        requires { All (IsWaiterOf groups) waiters.items }
        ensures ok { IfOk result (λ totals. IsBalanced (waiters_of groups) (records_of waiters.items) totals) }
        ensures succeeds { IsOk result ↔ HasAll (numbers_of waiters.items) (waiters_of groups) }
        ensures missing { IfErr result (λ fault. IsCauseOf (numbers_of waiters.items) (waiters_of groups) fault.cause) }
        ensures err { IfErr result (λ fault. (fault.groups ≡ groups) × (fault.waiters ≡ waiters)) }
    {
        if let Err(cause) = all_there(&waiters, groups.waiters) {
            return Err(GroupsGatherFault {
                cause,
                groups,
                waiters,
            });
        }
        let all = gather_each(&groups, waiters);
        Ok(groups.finish(all))
    }

    /// Starts a gathering with its first waiter.
    pub fn start_gathering(&self, waiter: Waiter) -> WaiterGathering
        requires { IsWaiterOf self.now waiter }
        ensures groups { IsGatheringOf self.now result }
        ensures gathered { gathered result ≡ record_of waiter ∷ [] }
    {
        let Waiter {
            seat,
            number: _,
            standing: _,
            next: _,
            moved,
            rung: _,
            before: _,
        } = waiter;
        WaiterGathering { seat, moved }
    }

    /// Closes the groups, once all waiters are gathered, and returns their totals. Waiters may still be in a group.
    pub fn finish(self, gathering: WaiterGathering) -> GroupTotals
        requires groups { IsGatheringOf self gathering }
        requires all { HasAll (numbers (gathered gathering)) (waiters_of self) }
        ensures { IsBalanced (waiters_of self) (gathered gathering) result }
    {
        let Groups {
            table,
            waiters: _,
            bells: _,
        } = self;
        let WaiterGathering { seat, moved } = gathering;
        let closed = table.close_with(seat);
        let (granted, waiting) = counts_of(&closed);
        discard(closed);
        GroupTotals {
            issued: moved,
            used: moved - granted,
            granted,
            waiting,
        }
    }
}

impl Gather for Groups {
    ghost use Rattle.wake_book.specs.Groups.{AreGathered};

    type Member = Waiter;

    type Gathering = WaiterGathering;

    ghost owns = { λ groups waiter. IsWaiterOf groups waiter };

    ghost gathers = { λ groups waiters gathering. AreGathered groups waiters gathering };

    fn take_first(&self, waiter: Waiter) -> WaiterGathering {
        self.start_gathering(waiter)
    }

    fn take_next(&self, gathering: &mut WaiterGathering, waiter: Waiter) {
        gathering.add(self, waiter);
    }
}

impl WaiterGathering {
    /// Adds a waiter of the groups to the gathering. The load that this takes is in no waiter's list.
    pub fn add(&mut self, groups: &Groups, waiter: Waiter)
        requires own { IsWaiterOf groups.now waiter }
        requires groups { IsGatheringOf groups.now self.old }
        ensures groups { IsGatheringOf groups.now self.new }
        ensures gathered { gathered self.new ≡ record_of waiter ∷ gathered self.old }
    {
        let Waiter {
            seat,
            number: _,
            standing: _,
            next: _,
            moved,
            rung: _,
            before: _,
        } = waiter;
        groups
            .table
            .shared
            .join_seat::<Collect>(&mut self.seat, seat);
        self.moved = self.moved.saturating_add(moved);
    }
}

/// Returns the grants and the waiting waiters of all groups together.
fn counts_of(closed: &Closed<(), Global>) -> (u64, u64)
    requires { IsFull closed.now.words × (slots_len closed.now.words ≡ groups_width) }
    ensures granted { result.0 ≡ sum_below (λ g. granted (word (slots_items closed.now.words) g)) 8 }
    ensures waiting { result.1 ≡ sum_below (λ g. waiting (word (slots_items closed.now.words) g)) 8 }
{
    let mut granted = 0u64;
    let mut waiting = 0u64;
    for group in 0..GROUPS {
        let word = closed.word(group_spot(group));
        granted += word % WAITING;
        waiting += word / WAITING;
    }
    (granted, waiting)
}
