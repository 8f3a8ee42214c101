//! The wait groups: eight words, each with a count of waiters and a count of grants, and the number of active waiters.
ghost use Rattle.std.specs.Prelude.{◌≡◌, ◌-◌, ◌^◌, ◌<◌, ◌≤◌, [], min};
ghost use Rattle.step_ledger.specs.Records.{steps_of, sum_over};
ghost use Rattle.step_ledger.specs.Views.{own_view};
ghost use Rattle.step_ledger.specs.History.{total};
ghost use Rattle.wake_book.specs.Waits.{all_fresh, group_at, groups_width, moved_by};
ghost use Rattle.wake_book.specs.Stands.{StandsSo};

use crate::rings::Rung;
use crate::spacing::STRIDE;
use crate::steps::GroupStep;
use atomic_table::{Seat, Table, TableRule};
use crossbeam_utils::CachePadded;
use crossbeam_utils::sync::EventCount;
use std::alloc::Global;
use std::snapshot::Snapshot;
use step_ledger::{Numbered, Records};

/// Index of the word that counts active waiters, after the spare word at 0 and the eight groups.
pub(crate) const ACTIVE: usize = 9 * STRIDE;

/// Index of the word that holds the wake index: the group that the next walk visits first.
pub(crate) const INDEX: usize = 10 * STRIDE;

/// Length of the table, in words. Its last word also has 64 bytes of its own.
pub(crate) const GROUP_WORDS: usize = 11 * STRIDE;

/// Number of groups. Each waiter enters them in turn.
pub(crate) const GROUPS: u32 = 8;

/// One waiter in a group's word, whose high 32 bits count those waiting and whose low 32 bits count unused grants.
pub(crate) const WAITING: u64 = 1 << 32;

/// The rule of the groups' table: its words are what some lawful history of the waiters' steps leaves.
#[derive(Drop)]
pub struct Waits;

impl TableRule<(), Records<GroupStep>, u32> for Waits {
    ghost use Rattle.wake_book.specs.Waits.{GroupsRule};

    ghost holds = { λ n. GroupsRule n };

    ghost first = { λ n. all_fresh n };
}

/// Eight groups, shared by up to 64 waiters without a lock.
#[derive(Drop)]
pub struct Groups {
    pub(crate) table: Table<(), Records<GroupStep>, u32, Waits, Global>,
    /// Number of waiters, 1 to 64.
    pub(crate) waiters: u32,
    /// The event count of each group, on which its sleepers wait. No clause mentions it.
    pub(crate) bells: [CachePadded<EventCount>; 8],
    ghost told: { table.shared.key ≡ waiters },
    ghost wide: { (table.shared.table_id.words ≡ groups_width) × (table.shared.table_id.slots ≡ 0) },
    ghost small: { (1 ≤ waiters) × (waiters ≤ 64) },
}

impl Groups {
    ghost use Rattle.wake_book.specs.Groups.{waiters_of};

    /// Returns the number of waiters, 1 to 64.
    pub fn waiters(&self) -> u32
        ensures value { result ≡ waiters_of self.now }
        ensures within { (1 ≤ result) × (result ≤ 64) }
    {
        self.waiters
    }
}

/// A handle that waits and wakes others. A contract sees its number, group, wait index, latest two rings, and the list of its
/// own steps.
#[derive(Drop)]
pub struct Waiter {
    pub(crate) seat: Seat<(), Records<GroupStep>>,
    /// Its number, from 0.
    pub(crate) number: u32,
    /// The group that it is in, 0 to 7, or `None`.
    pub(crate) standing: Option<u32>,
    /// The wait index: the group that it enters next, 0 to 7.
    pub(crate) next: u32,
    /// Waiters that it moved from waiting to granted, at most 2^56.
    pub(crate) moved: u64,
    /// Whom its latest ring was for, and nobody (`Nudged(0)`) before the first. Only contracts see it.
    pub(crate) rung: Snapshot<Rung>,
    /// Whom the ring before that was for. Only contracts see it.
    pub(crate) before: Snapshot<Snapshot<Rung>>,
    ghost knows: { seat.me ≡ (own_view (record { number = number; steps = steps_of seat.me.0 }), []) },
    ghost stands: { StandsSo standing (steps_of seat.me.0) },
    ghost within: { next < 8 },
    ghost moves: { (moved ≡ total moved_by (steps_of seat.me.0)) × (moved ≤ 2 ^ 56) },
}

impl Numbered for Waiter {
    ghost number_of = { λ waiter. waiter.number };

    fn number(&self) -> u32 {
        self.number
    }
}

/// The waiters gathered so far. A contract sees the list of their records, the last one added first.
#[derive(Drop)]
pub struct WaiterGathering {
    /// The seat that holds the records of these waiters.
    pub(crate) seat: Seat<(), Records<GroupStep>>,
    /// Moves to granted by these waiters, as a saturating sum. 64 waiters of at most 2^56 moves each never saturate it.
    pub(crate) moved: u64,
    ghost empty: { seat.me.1 ≡ [] },
    ghost sum: { moved ≡ min (sum_over (total moved_by) seat.me.0.records.value) (2 ^ 64 - 1) },
}

/// The totals of the groups, known once all their waiters are gathered.
#[derive(Clone, Copy, Debug, PartialEq, Eq)]
pub struct GroupTotals {
    /// Grants made: waiters moved from waiting to granted.
    pub issued: u64,
    /// Grants used.
    pub used: u64,
    /// Grants not used yet.
    pub granted: u64,
    /// Waiters that are waiting without a grant.
    pub waiting: u64,
}

/// Returns the index of a group's word.
pub(crate) fn group_spot(group: u32) -> usize
    requires { group < 8 }
    ensures { result ≡ group_at group }
{
    STRIDE + STRIDE * group as usize
}
