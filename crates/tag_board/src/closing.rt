//! Closing a board.
ghost use Rattle.std.specs.Prelude.{◌≡◌, ◌+◌};
ghost use Rattle.tag_board.specs.Boards.{state_of};
ghost use Rattle.tag_board.specs.Closing.{totals_in};

use crate::board::Board;
use tag_model::Totals;
use tag_queue::Queue;

impl Board {
    /// Gathers all callers. Returns the totals over both sets: tags got, given back, held and posted. They balance.
    pub fn close(self) -> Totals
        ensures totals { result ≡ totals_in (state_of self) }
        ensures balance { result.got ≡ result.back + result.held + result.posted }
    {
        let Board {
            queue,
            hands,
            total: _,
            reserved: _,
        } = self;
        let Ok(totals) = Queue::gather(queue, hands) else {
            unreachable!()
        };
        totals.tags
    }
}
