//! Commands that give tags back.
ghost use Rattle.tag_board.specs.Boards.{state_of, IsCallerOf};
ghost use Rattle.tag_board.specs.Replays.{Clears, ClearsList};

use crate::board::Board;
use tag_queue::{Ring, TagFault};

impl Board {
    /// Gives a held tag back, and returns the number of waiters woken: 0 for a reserved tag. `NoSuchTag` for a tag past
    /// the last, `NotHeld` for one that the caller does not hold.
    pub fn clear(&mut self, caller: u32, tag: u32) -> Result<u32, TagFault>
        requires { IsCallerOf self.old caller }
        ensures { Clears tag caller (state_of self.old) result (state_of self.new) }
    {
        self.queue
            .clear::<Ring>(&mut self.hands[caller as usize], tag)
    }

    /// Gives back 1 to 64 distinct held ordinary tags at once, and returns the number of waiters woken. `BadCount` for
    /// another number of tags, `NoSuchTag` if one is not ordinary, `NotHeld` if one is not held or is named twice.
    pub fn clear_batch(&mut self, caller: u32, tags: &[u32]) -> Result<u32, TagFault>
        requires { IsCallerOf self.old caller }
        ensures { ClearsList tags.now caller (state_of self.old) result (state_of self.new) }
    {
        self.queue
            .clear_batch::<Ring>(&mut self.hands[caller as usize], tags)
    }
}
