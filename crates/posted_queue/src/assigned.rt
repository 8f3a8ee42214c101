//! Which token each tag goes by.
ghost use Rattle.std.specs.Prelude.{◌≤◌};

use atomic_table::{Play, Seat, Table, TableRule};
use std::alloc::{AllocError, Global};
use std::collections::LinkedList;

/// What is assigned to a tag whose number is in the line: no token has this number.
pub(crate) const NO_TOKEN: u64 = u64::MAX;

/// What the rule of the assignments knows of a hand. No value of this type is ever made.
pub struct Assigning {
    /// Each tag that the hand looked up with the token found, newest first.
    pub found: LinkedList<(u32, u64)>,
    /// Each tag that it assigned a token to, with the token, newest first.
    pub assigned: LinkedList<(u32, u64)>,
}

/// The rule: a tag goes by the token that was assigned to it last, and at first by the one of its own number.
pub struct LastAssigned;

impl TableRule<(), Assigning, ()> for LastAssigned {
    ghost use Rattle.std.specs.Prelude.{[]};
    ghost use Rattle.posted_queue.specs.Assigned.{AreAssigned, assigning};

    ghost holds = { λ _. AreAssigned };

    ghost first = { λ _. assigning [] [] };
}

/// A hand joins, which has looked up and assigned nothing.
struct Joining;

impl Play<(), Assigning> for Joining {
    ghost use Rattle.std.specs.Prelude.{◌≡◌};

    ghost then = { λ s m n w. w ≡ m };
}

/// A hand looks up the tag.
struct Looking;

impl Play<(), Assigning> for Looking {
    ghost use Rattle.posted_queue.specs.Assigned.{LooksUp};

    ghost then = { λ s m n w. LooksUp s.word n m.0 w.0 };
}

/// A hand assigns a token to the tag.
struct Assigned;

impl Play<(), Assigning> for Assigned {
    ghost use Rattle.posted_queue.specs.Assigned.{Assigns};

    ghost then = { λ s m n w. Assigns s.word n m.0 w.0 };
}

/// For each tag the token that it goes by, or `NO_TOKEN`.
#[derive(Drop)]
pub(crate) struct Assignments {
    table: Table<(), Assigning, (), LastAssigned, Global>,
    ghost some: { 1 ≤ table.shared.table_id.words },
}

impl Assignments {
    ghost use Rattle.std.specs.Prelude.{◌≡◌, ◌<◌, ◌≤◌, [], IfOk};
    ghost use Rattle.posted_queue.specs.Assigned.{Assigns, IsSeatOf, LooksUp, assigning, assigning_in, tags_in};

    /// Lets each of these tags go by the token of its own number. It has room for one at least.
    pub(crate) fn own(alloc: Global, tags: u32) -> Result<Assignments, AllocError>
        ensures { IfOk result (λ made. tags ≤ tags_in made) }
    {
        let mut own = Vec::new(alloc);
        for number in 0..tags.max(1) {
            own.push(u64::from(number))?;
        }
        let (table, _) = Table::of_words(alloc, own.as_slice(), &())?;
        Ok(Assignments { table })
    }

    /// Returns what a new hand has of the assignments.
    pub(crate) fn seat(&self) -> Seat<(), Assigning>
        ensures seat { IsSeatOf self.now result }
        ensures new { assigning_in result ≡ assigning [] [] }
    {
        self.table.shared.load_new_seat::<Joining>(0).1
    }

    /// Returns the token that the tag goes by, or `NO_TOKEN`.
    pub(crate) fn look_up(&self, seat: &mut Seat<(), Assigning>, tag: u32) -> u64
        requires seat { IsSeatOf self.now seat.old }
        requires tag { tag < tags_in self.now }
        ensures seat { IsSeatOf self.now seat.new }
        ensures looks { LooksUp tag result (assigning_in seat.old) (assigning_in seat.new) }
    {
        self.table.shared.load::<Looking>(seat, tag as usize)
    }

    /// Assigns a token to the tag, or `NO_TOKEN`.
    pub(crate) fn assign(&self, seat: &mut Seat<(), Assigning>, tag: u32, token: u64)
        requires seat { IsSeatOf self.now seat.old }
        requires tag { tag < tags_in self.now }
        ensures seat { IsSeatOf self.now seat.new }
        ensures assigns { Assigns tag token (assigning_in seat.old) (assigning_in seat.new) }
    {
        self.table
            .shared
            .store::<Assigned>(seat, tag as usize, token);
    }
}
