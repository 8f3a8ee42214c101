//! Commands that wait.
ghost use Rattle.tag_board.specs.Boards.{state_of, IsCallerOf};
ghost use Rattle.tag_board.specs.Replays.{Waits, Leaves, FindsWakes};

use crate::board::Board;
use std::sync::Wait;
use tag_queue::{Left, WaitFault, Wakes};

impl Board {
    /// Enters a wait group, and returns its number, below 8. `Waiting` if the caller is in one already.
    pub fn wait(&mut self, caller: u32) -> Result<u32, WaitFault>
        requires { IsCallerOf self.old caller }
        ensures { Waits caller (state_of self.old) result (state_of self.new) }
    {
        self.queue.prepare_wait(&mut self.hands[caller as usize])
    }

    /// Leaves the wait group, and returns whether the caller used a wakeup. It never sleeps. `NotWaiting` if the caller
    /// is in no group.
    pub fn leave<W: Wait>(&mut self, rt: &W, caller: u32) -> Result<Left, WaitFault>
        requires { IsCallerOf self.old caller }
        ensures { Leaves caller (state_of self.old) result (state_of self.new) }
    {
        self.queue.finish_wait(rt, &mut self.hands[caller as usize])
    }

    /// Returns the completions counted, the wakeups charged, the wake index, and the number of active waiters.
    pub fn wakes(&mut self, caller: u32) -> Wakes
        requires { IsCallerOf self.old caller }
        ensures { FindsWakes caller (state_of self.old) result (state_of self.new) }
    {
        self.queue.wakes(&mut self.hands[caller as usize])
    }
}
