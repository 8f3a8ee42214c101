//! Opens wait groups with their waiters.
ghost use Rattle.std.specs.Prelude.{◌≡◌, ◌≢◌, ◌<◌, ◌≤◌, [], ◌∷◌, All, IfOk};
ghost use Rattle.refusals.specs.Refusals.{RefusesOrRunsOut};
ghost use Rattle.step_ledger.specs.Records.{fresh_record};
ghost use Rattle.wake_book.specs.Groups.{IsWaiterOf, IsNew, record_of, waiters_of, AreOpenGroups, CountsGroups};
ghost use Rattle.wake_book.specs.Rest.{HasRestFrom};

use crate::fault::BookFault;
use crate::groups::{GROUP_WORDS, Groups, Waiter};
use crate::rings::Rung;
use crate::steps::GroupStep;
use atomic_table::{Seat, Table};
use crossbeam_utils::CachePadded;
use crossbeam_utils::sync::EventCount;
use std::alloc::{AllocError, Global};
use std::snapshot::Snapshot;
use step_ledger::{HandOut, MemberSource, Records, hand_out};

/// The most waiters that groups can have.
const MAX_WAITERS: u32 = 64;

impl Groups {
    /// Opens eight empty groups with `waiters` waiters, 1 to 64, in the order of their numbers. `Count` means that
    /// their number is out of range; `Memory` comes last.
    pub fn open(alloc: Global, waiters: u32) -> Result<(Groups, Vec<Waiter>), BookFault>
        ensures ok { IfOk result (λ opened. AreOpenGroups waiters opened.0 opened.1.items) }

        ensures refusals { RefusesOrRunsOut ((CountsGroups waiters, BookFault.Count) ∷ []) BookFault.Memory result }
    {
        if waiters == 0 || waiters > MAX_WAITERS {
            return Err(BookFault::Count);
        }
        let Ok(opened) = Groups::lay_out(alloc, waiters) else {
            return Err(BookFault::Memory);
        };
        Ok(opened)
    }

    fn lay_out(alloc: Global, waiters: u32) -> Result<(Groups, Vec<Waiter>), AllocError>
        requires { (1 ≤ waiters) × (waiters ≤ 64) }
        ensures { IfOk result (λ opened. AreOpenGroups waiters opened.0 opened.1.items) }
    {
        let words = [0u64; GROUP_WORDS];
        let (table, rest) = Table::of_words(alloc, &words, &waiters)?;
        let groups = Groups {
            table,
            waiters,
            bells: [
                new_bell(),
                new_bell(),
                new_bell(),
                new_bell(),
                new_bell(),
                new_bell(),
                new_bell(),
                new_bell(),
            ],
        };
        let all = hand_out(alloc, &groups, rest, waiters)?;
        Ok((groups, all))
    }
}

impl MemberSource for Groups {
    type Member = Waiter;

    type Rest = Seat<(), Records<GroupStep>>;

    ghost count_of = { λ groups. waiters_of groups };

    ghost has_rest = { λ groups number rest. (rest.table_id ≡ groups.table.shared.table_id)
        × HasRestFrom number (waiters_of groups) rest.me };

    ghost is_new = { λ groups number waiter. IsWaiterOf groups waiter × IsNew waiter
        × (record_of waiter ≡ fresh_record number) };

    fn next_member(
        &self,
        _alloc: Global,
        rest: &mut Seat<(), Records<GroupStep>>,
        number: u32,
    ) -> Result<Waiter, AllocError> {
        let seat = self.table.shared.split_seat::<HandOut>(rest);
        Ok(Waiter {
            seat,
            number,
            standing: None,
            next: 0,
            moved: 0,
            rung: Snapshot::of(&Rung::Nudged(0)),
            before: Snapshot::of(&Snapshot::of(&Rung::Nudged(0))),
        })
    }
}

fn new_bell() -> CachePadded<EventCount> {
    CachePadded::new(EventCount::new())
}
