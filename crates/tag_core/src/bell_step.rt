//! The kinds of atomic step by which callers wait. Only contracts and proofs speak of them: the code keeps no list of
//! steps.
use crate::berth::{Berth, Waiter};

/// One atomic step on the word of all who wait, on the clock of turns or on a caller's berth. The last one is what the
/// step found.
pub enum BellStep {
    /// The caller of this number, who makes the step, joins all who wait.
    Enter(u32, u64),
    /// The caller of this number, who makes the step, leaves all who wait.
    Leave(u32, u64),
    /// A load of the word of all who wait, which has a bit for each caller: 1 waits.
    LookAll(u64),
    /// The next turn is taken.
    TakeTurn(u64),
    /// The caller of this number, who makes the step, lists itself as this waiter with this turn.
    Enlist(u32, Waiter, u64, Berth),
    /// A load of this caller's berth.
    LookAt(u32, Berth),
    /// This caller is told, if it is listed as this waiter with this turn.
    Tell(u32, Waiter, u64, Berth),
    /// The caller of this number, who makes the step, gets up: it is listed no more.
    GetUp(u32, Berth),
}
