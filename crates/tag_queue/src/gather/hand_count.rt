//! Establishes that no more hands were passed in than the queue was opened for.
ghost use Rattle.std.specs.Prelude.{◌≡◌, ◌≤◌, length, All, MatchOption};
ghost use Rattle.tag_queue.specs.Gathering.{AreDistinct, HaveSameNumber};
ghost use Rattle.tag_queue.specs.Hands.{IsHandOf, hands_of, numbers_of};

use crate::hand::QueueHand;
use crate::queue::Queue;
use step_ledger::Numbered;

/// Returns the indexes of two hands with the same number, the lower one first, or `None` if all numbers differ.
fn find_same_number<R>(hands: &[QueueHand<R>]) -> Option<(usize, usize)>
    ensures { MatchOption result (AreDistinct (numbers_of hands.now)) (λ pair. HaveSameNumber (numbers_of hands.now) pair.0 pair.1) }
{
    for second in 0..hands.len() {
        for first in 0..second {
            if hands[first].number() == hands[second].number() {
                return Some((first, second));
            }
        }
    }
    None
}

impl<R> Queue<R> {
    /// Returns the number of hands, 1 to 64.
    pub(crate) fn hand_count(&self) -> u32
        ensures { result ≡ hands_of self.now }
    {
        self.room.count
    }
}

impl<R: Copy> Queue<R> {
    /// Establishes that there are at most as many hands as the queue was opened for, by one comparison.
    pub(crate) fn assert_hand_count(&self, mut hands: Vec<QueueHand<R>>) -> Vec<QueueHand<R>>
        requires { All (IsHandOf self.now) hands.items }
        ensures same { result ≡ hands }
        ensures few { length result.items ≤ hands_of self.now }
    {
        if hands.len() <= self.hand_count() as usize {
            return hands;
        }
        // More hands than numbers: two would have the same number, and `meet` shows that they differ.
        let Some((first, second)) = find_same_number(hands.as_slice()) else {
            unreachable!()
        };
        // The later one first, so that the earlier index still holds.
        let mut later = hands.remove(second);
        let mut earlier = hands.remove(first);
        self.meet(&mut earlier, &mut later);
        unreachable!()
    }
}
