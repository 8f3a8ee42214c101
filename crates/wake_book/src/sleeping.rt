//! Sleeps, which a waiter announces first, and which end at a grant or at a ring.
ghost use Rattle.std.specs.Prelude.{◌≡◌, ◌<◌, IsSome};

use crate::groups::{Groups, WAITING, Waiter};
use crossbeam_utils::sync;
use std::snapshot::Snapshot;
use std::sync::Wait;

/// What a waiter's steps were when it announced a sleep, and what another value was at that moment. Only contracts see
/// either.
#[derive(Drop)]
pub struct Announcement<T> {
    /// The waiter as it announced the sleep.
    pub(crate) waiter: Snapshot<Waiter>,
    /// The other value at that moment.
    pub(crate) beside: Snapshot<T>,
}

/// An announced sleep in a group. To drop it cancels the sleep.
#[derive(Drop)]
pub struct Key<'a, T> {
    /// The announcement to the group's event count.
    pub(crate) wait: sync::Key<'a>,
    /// The group, 0 to 7.
    pub(crate) group: u32,
    /// The groups. Only contracts see them.
    pub(crate) groups: Snapshot<Groups>,
    /// When the sleep was announced. Only contracts see it.
    pub(crate) announcement: Announcement<T>,
    ghost within: { group < 8 },
}

impl Groups {
    ghost use Rattle.wake_book.specs.Groups.{IsWaiterOf, IsKeyFor, standing_of, moved_of, steps_of, StandsSilent, Sleeps};
    ghost use Rattle.wake_book.specs.Groups.{announcement_of, announced_beside, announced_steps};

    /// Announces a sleep in the waiter's group, so that a ring from now on ends it. Whoever announces first and then
    /// looks for what it waits for misses no ring. The key keeps the waiter's steps and what `beside` is at this moment.
    /// This makes no step.
    pub fn announce<T>(&self, waiter: &Waiter, beside: &T) -> Key<'_, T>
        requires groups { IsWaiterOf self.now waiter.now }
        requires stands { IsSome (standing_of waiter.now) }
        ensures key { IsKeyFor self.now waiter.now result }
        ensures beside { announced_beside (announcement_of result) ≡ beside.now }
        ensures steps { announced_steps (announcement_of result) ≡ steps_of waiter.now }
    {
        let Some(group) = Groups::standing(waiter) else {
            unreachable!()
        };
        Key {
            wait: self.bells[group as usize].prepare_wait(),
            group,
            groups: Snapshot::of(self),
            announcement: Announcement {
                waiter: Snapshot::of(waiter),
                beside: Snapshot::of(beside),
            },
        }
    }

    /// Looks at the waiter's group once, and if it finds no grant there, sleeps until a ring that came after
    /// `announce`. So it returns because of a grant or of a ring: a waiter that finds no grant when it leaves was only
    /// rung. Another waiter of the group may use the grant first. It returns when the sleep was announced.
    pub fn sleep<R: Wait, T>(&self, rt: &R, waiter: &mut Waiter, key: Key<'_, T>) -> Announcement<T>
        requires groups { IsWaiterOf self.now waiter.old }
        requires key { IsKeyFor self.now waiter.old key }
        ensures groups { IsWaiterOf self.now waiter.new × StandsSilent waiter.old waiter.new }
        ensures moved { moved_of waiter.new ≡ moved_of waiter.old }
        ensures slept { Sleeps waiter.old waiter.new }
        ensures announced { result ≡ announcement_of key.entry }
    {
        let Key {
            wait,
            group,
            groups: _,
            announcement,
        } = key;
        if self.look_group(waiter, group) % WAITING > 0 {
            return announcement;
        }
        wait.wait(rt);
        announcement
    }
}

impl<T> Announcement<T> {
    ghost use Rattle.std.specs.Prelude.{[]};
    ghost use Rattle.wake_book.specs.Groups.{steps_of, announced_beside, announced_steps};

    /// Returns the announcement of a waiter that has made no step, and so has announced nothing yet.
    pub fn none(waiter: &Waiter, beside: &T) -> Announcement<T>
        requires { steps_of waiter.now ≡ [] }
        ensures beside { announced_beside result ≡ beside.now }
        ensures steps { announced_steps result ≡ [] }
    {
        Announcement {
            waiter: Snapshot::of(waiter),
            beside: Snapshot::of(beside),
        }
    }
}
