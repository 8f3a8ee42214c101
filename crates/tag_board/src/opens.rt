//! Opening a board.
ghost use Rattle.std.specs.Prelude.{IfOk};
ghost use Rattle.refusals.specs.Refusals.{RefusesOrRunsOut};
ghost use Rattle.tag_queue.specs.Refusals.{open_checks};
ghost use Rattle.tag_board.specs.Boards.{state_of};
ghost use Rattle.tag_board.specs.Opening.{IsOpen};

use crate::board::Board;
use std::alloc::Global;
use tag_queue::{Options, Queue, QueueOpenFault};

impl Board {
    /// Opens a board whose tags are all free, and each of whose callers may count up to `cap` completions, at most
    /// 2^56. Refused as `Queue::open` refuses: `TotalTooLarge`, `ReservedTooLarge`, `ShiftTooLarge`, `CallerCount`,
    /// `LifeTooLong`, `CapTooLarge`, and last `Memory`.
    pub fn open(alloc: Global, options: Options, cap: u64) -> Result<Board, QueueOpenFault>
        ensures ok { IfOk result (λ board. IsOpen options cap (state_of board)) }
        ensures refusals { RefusesOrRunsOut (open_checks options cap) QueueOpenFault.Memory result }
    {
        let (queue, hands) = Queue::open(alloc, options, cap, 0u64)?;
        Ok(Board {
            queue,
            hands,
            total: options.depth,
            reserved: options.reserved,
        })
    }
}
