//! The queue.
ghost use Rattle.std.specs.Prelude.{◌≡◌, ◌≤◌};
ghost use Rattle.tag_pool.specs.Hands.{hands_of};
ghost use Rattle.wake_book.specs.Book.{batch_of, tellers_of};
ghost use Rattle.wake_book.specs.Groups.{waiters_of};

use crate::room::Room;
use tag_pool::Pool;
use wake_book::{Book, Groups};

/// A pool, with a count of completions and groups of waiters.
#[derive(Drop)]
pub struct Queue<R> {
    pub(crate) pool: Pool<R>,
    pub(crate) book: Book,
    pub(crate) groups: Groups,
    /// Completions per charge, 1 to 8.
    pub(crate) batch: u32,
    /// The minimum shallow depth as the options gave it. A resize computes the new batch from it.
    pub(crate) min_shallow: Option<u32>,
    /// Room for the hands of the pool, for calls that take the queue's hands apart.
    pub(crate) room: Room<R>,
    ghost batch_is: { batch_of book ≡ batch },
    ghost narrow: { (1 ≤ batch) × (batch ≤ 8) },
    ghost as_many: { (tellers_of book ≡ hands_of pool) × (waiters_of groups ≡ hands_of pool)
        × (room.count ≡ hands_of pool) },
}

impl<R> Queue<R> {
    ghost use Rattle.tag_queue.specs.Hands.{pool_of};

    /// Returns the pool of the queue's tags. Its hands are those of the queue.
    #[inline]
    pub fn pool(&self) -> &Pool<R>
        ensures { result.now ≡ pool_of self.now }
    {
        &self.pool
    }
}
