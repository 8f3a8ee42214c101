//! Resizing a board.
ghost use Rattle.std.specs.Prelude.{IfOk, IsErr};
ghost use Rattle.tag_board.specs.Boards.{state_of};
ghost use Rattle.tag_board.specs.Resizes.{Resizes, MayResize};

use crate::board::Board;
use std::alloc::{AllocError, Global};
use tag_queue::{Queue, QueueResizeFault, ResizeCause};

impl Board {
    /// Continues with `total` tags, as many of them reserved as before, and with all callers. Returns the board with
    /// the answer; a refusal leaves it unchanged. If memory runs out, the board is lost.
    pub fn resize(
        self,
        alloc: Global,
        total: u32,
    ) -> Result<(Result<(), ResizeCause>, Board), AllocError>
        ensures answers { IfOk result (λ resized. Resizes total (state_of self) resized.0 (state_of resized.1)) }
        ensures memory { IsErr result → MayResize (state_of self) total }
    {
        let Board {
            queue,
            hands,
            total: before,
            reserved,
        } = self;
        match Queue::resize(alloc, queue, hands, total) {
            Ok((queue, hands)) => Ok((
                Ok(()),
                Board {
                    queue,
                    hands,
                    total,
                    reserved,
                },
            )),
            Err(
                QueueResizeFault {
                    cause,
                    queue,
                    hands,
                },
            ) => match cause {
                ResizeCause::Memory => Err(AllocError),
                _ => {
                    let board = Board {
                        queue,
                        hands,
                        total: before,
                        reserved,
                    };
                    Ok((Err(cause), board))
                }
            },
        }
    }
}
