//! The board of a script.
ghost use Rattle.std.specs.Prelude.{◌≡◌, length, All};
ghost use Rattle.tag_pool.specs.Hands.{total_of, reserved_of};
ghost use Rattle.tag_queue.specs.Hands.{IsHandOf, hands_of, pool_of};
ghost use Rattle.tag_board.specs.Parts.{AreOrdered};

use tag_queue::{Queue, QueueHand};

/// A queue and all its hands: the hand at index `n` is caller `n`. A contract sees a board as its `State`, which is
/// what the answers so far determine.
#[derive(Drop)]
pub struct Board {
    pub(crate) queue: Queue<u64>,
    /// One hand per caller, in the order of their numbers.
    pub(crate) hands: Vec<QueueHand<u64>>,
    /// Number of tags in both sets, at most 10,240.
    pub(crate) total: u32,
    /// Number of reserved tags, the lowest of the range, at most `total`.
    pub(crate) reserved: u32,
    ghost own: { All (IsHandOf queue) hands.items },
    ghost ordered: { AreOrdered hands.items },
    ghost every: { length hands.items ≡ hands_of queue },
    ghost sizes: { (total_of (pool_of queue) ≡ total) × (reserved_of (pool_of queue) ≡ reserved) },
}
