//! The laws of a queue. These functions do nothing: the contract of each is a law of every run.
ghost use Rattle.posted_queue.specs.Laws.{NobodySleepsBesideAQueuedTag};
ghost use Rattle.posted_queue.specs.Turns.{FirstComeFirstServed};

/// Between any two steps of any schedule: if a hand is asleep in a queue and a tag is queued, some other hand, which is not
/// asleep, is on the way to it.
pub fn nobody_sleeps_beside_a_queued_tag()
    ensures { NobodySleepsBesideAQueuedTag }
{}

/// At any moment: each number was popped at most once from its place in the line, after it was pushed there, and after each
/// number that was pushed before it.
pub fn first_come_first_served()
    ensures { FirstComeFirstServed }
{}
