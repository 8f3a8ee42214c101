//! Takes hands apart into hands of the pool and shells, and puts them together again, in room reserved for it.
ghost use Rattle.std.specs.Prelude.{◌≡◌, ◌≤◌, [], vec_capacity};

use crate::hand::QueueHand;
use std::alloc::{AllocError, Global};
use tag_pool::Hand;
use wake_book::{Announcement, Sighting, Teller, Waiter};

/// A hand of a queue without its hand of the pool.
#[derive(Drop)]
pub(crate) struct Shell<R> {
    pub(crate) teller: Teller,
    pub(crate) waiter: Waiter,
    pub(crate) sighting: Sighting<Hand<R>>,
    pub(crate) announcement: Announcement<Hand<R>>,
}

/// Room for the parts of all hands, reserved by `open`, so that taking hands apart never allocates.
#[derive(Drop)]
pub(crate) struct Room<R> {
    pub(crate) inners: Vec<Hand<R>>,
    pub(crate) shells: Vec<Shell<R>>,
    /// Number of hands, 1 to 64.
    pub(crate) count: u32,
    ghost empty: { (inners.items ≡ []) × (shells.items ≡ []) },
    ghost roomy: { (count ≤ vec_capacity inners) × (count ≤ vec_capacity shells) },
}

impl<R> Room<R> {
    ghost use Rattle.std.specs.Prelude.{◌≡◌, ◌≤◌, [], IfOk, vec_capacity, length, map};
    ghost use Rattle.tag_queue.specs.Hands.{all_in_pool};
    ghost use Rattle.tag_queue.specs.Parts.{FitShells, shell_of};

    /// Reserves room for the parts of `count` hands.
    pub(crate) fn open(alloc: Global, count: u32) -> Result<Room<R>, AllocError>
        ensures { IfOk result (λ room. room.count ≡ count) }
    {
        let inners = Vec::with_capacity(alloc, count as usize)?;
        let shells = Vec::with_capacity(alloc, count as usize)?;
        Ok(Room {
            inners,
            shells,
            count,
        })
    }

    /// Takes the hands apart, in order. The hands' vector keeps its capacity.
    pub(crate) fn part(self, hands: &mut Vec<QueueHand<R>>) -> (Vec<Hand<R>>, Vec<Shell<R>>)
        requires { length hands.old.items ≤ self.count }
        ensures inners { result.0.items ≡ all_in_pool hands.old.items }
        ensures shells { result.1.items ≡ map shell_of hands.old.items }
        ensures empty { hands.new.items ≡ [] }
        ensures room { vec_capacity hands.new ≡ vec_capacity hands.old }
    {
        let Room {
            mut inners,
            mut shells,
            count: _,
        } = self;
        while let Some(hand) = hands.pop() {
            let QueueHand {
                teller,
                waiter,
                sighting,
                announcement,
                inner,
            } = hand;
            inners.push_reserved(inner);
            shells.push_reserved(Shell {
                teller,
                waiter,
                sighting,
                announcement,
            });
        }
        inners.reverse();
        shells.reverse();
        (inners, shells)
    }

    /// Puts hands together from these parts, in order. The vectors of the parts keep their capacity.
    pub(crate) fn unite(
        mut inners: Vec<Hand<R>>,
        mut shells: Vec<Shell<R>>,
        hands: &mut Vec<QueueHand<R>>,
        count: u32,
    ) -> Room<R>
        requires fit { FitShells inners.items shells.items }
        requires count { count ≤ length inners.items }
        requires empty { hands.old.items ≡ [] }
        requires room { length inners.items ≤ vec_capacity hands.old }
        ensures inners { all_in_pool hands.new.items ≡ inners.items }
        ensures shells { map shell_of hands.new.items ≡ shells.items }
        ensures count { result.count ≡ count }
    {
        while let Some(inner) = inners.pop() {
            let Some(shell) = shells.pop() else {
                unreachable!()
            };
            hands.push_reserved(shell.around(inner));
        }
        hands.reverse();
        Room {
            inners,
            shells,
            count,
        }
    }
}

impl<R> Shell<R> {
    ghost use Rattle.std.specs.Prelude.{◌≡◌};
    ghost use Rattle.tag_queue.specs.Hands.{in_pool};
    ghost use Rattle.tag_queue.specs.Parts.{Fits, shell_of};

    /// Puts a hand together from its hand of the pool and this shell.
    fn around(self, inner: Hand<R>) -> QueueHand<R>
        requires { Fits inner self.teller self.waiter }
        ensures inner { in_pool result ≡ inner }
        ensures shell { shell_of result ≡ self }
    {
        let Shell {
            teller,
            waiter,
            sighting,
            announcement,
        } = self;
        QueueHand {
            teller,
            waiter,
            sighting,
            announcement,
            inner,
        }
    }
}
