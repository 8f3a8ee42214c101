//! Commands that pass a tag from one caller to another.
ghost use Rattle.tag_board.specs.Boards.{state_of, IsCallerOf};
ghost use Rattle.tag_board.specs.Replays.{Posts, Takes};

use crate::board::Board;
use tag_queue::TagFault;

impl Board {
    /// Hands a held tag on, to whichever caller takes it first. `NoSuchTag` for a tag past the last, `NotHeld` for one
    /// that the caller does not hold.
    pub fn post(&mut self, caller: u32, tag: u32) -> Result<(), TagFault>
        requires { IsCallerOf self.old caller }
        ensures { Posts tag caller (state_of self.old) result (state_of self.new) }
    {
        self.queue.post(&mut self.hands[caller as usize], tag)
    }

    /// Takes a posted tag, which no caller held. `NoSuchTag` for a tag past the last, `NotPosted` if the call did not
    /// find it posted.
    pub fn take(&mut self, caller: u32, tag: u32) -> Result<(), TagFault>
        requires { IsCallerOf self.old caller }
        ensures { Takes tag caller (state_of self.old) result (state_of self.new) }
    {
        self.queue.take(&mut self.hands[caller as usize], tag)?;
        self.tell_free(caller, Some(tag));
        Ok(())
    }
}
