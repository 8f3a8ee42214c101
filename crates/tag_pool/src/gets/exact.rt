//! Gets of one given tag: the call that then sees to the tags that its sweeps freed, and the one that tells nobody.
ghost use Rattle.std.specs.Prelude.{◌≡◌, ◌+◌, ◌≤◌, IfOk};
ghost use Rattle.refusals.specs.Refusals.{RefusesBy};
ghost use Rattle.tag_search.specs.Exact.{most_exact_steps};
ghost use Rattle.tag_pool.specs.Exact.{DoesGetExactly, GetsExactly};
ghost use Rattle.tag_pool.specs.Gets.{GetsAndLooks};
ghost use Rattle.tag_pool.specs.Hands.{IsHandOf, IsStillOf, reserved_of, step_count};
ghost use Rattle.tag_pool.specs.Refusals.{exact_checks};
ghost use Rattle.tag_pool.specs.Sets.{kind_of};
ghost use Rattle.tag_pool.specs.Sides.{see_to_steps};

use crate::fault::TagFault;
use crate::gets::Got;
use crate::hand::Hand;
use crate::pool::Pool;
use tag_search::Found;

impl<R: Copy> Pool<R> {
    /// Takes this tag if it is free, and no other, by at most 22 steps. `None` means that it was found taken at some moment of
    /// the call: a hand held it, it was posted, or a sweep of another hand was about to free it. A tag that is set aside
    /// counts as free, and a reserved one is taken like an ordinary one. Then it tells those that wait for
    /// a tag of its kind as `get` does, whatever it answers. The hint stays where it is. `NoSuchTag` means that the number
    /// is not below the total, `Spent` that the hand's life in the tag's set is used up.
    pub fn get_exactly(&self, hand: &mut Hand<R>, tag: u32) -> Result<Got<Option<u32>>, TagFault>
        requires hand { IsHandOf self.now hand.old }
        ensures hand { IsStillOf self.now hand.old hand.new }
        ensures refusals { RefusesBy (exact_checks self.now tag hand.old) (hand.new ≡ hand.old) result }
        ensures gets { IfOk result (λ got.
            GetsAndLooks (kind_of (reserved_of self.now) tag) (GetsExactly self.now tag got.answer) got.woken hand.old hand.new) }
        ensures bound { step_count hand.new ≤ most_exact_steps + see_to_steps + step_count hand.old }
    {
        let Found { answer, left } = self.get_exactly_quietly(hand, tag)?;
        let woken = self.look_after(hand, self.kind(tag), left);
        Ok(Got { answer, woken })
    }

    /// Like `get_exactly`, but tells nobody (see `get_quietly`). It is refused as `get_exactly` is: `NoSuchTag`, `Spent`.
    pub fn get_exactly_quietly(&self, hand: &mut Hand<R>, tag: u32) -> Result<Found<u32>, TagFault>
        requires hand { IsHandOf self.now hand.old }
        ensures hand { IsStillOf self.now hand.old hand.new }
        ensures does { DoesGetExactly tag self.now result hand.old hand.new }
    {
        self.find(tag)?;
        if tag < self.reserved_count {
            let Ok(found) = hand.reserved.get_exactly(&self.reserved, tag) else {
                return Err(TagFault::Spent);
            };
            return Ok(found);
        }
        let number = tag - self.reserved_count;
        let Ok(Found { answer, left }) = hand.ordinary.get_exactly(&self.ordinary, number) else {
            return Err(TagFault::Spent);
        };
        let answer = self.ordinary_tag(answer);
        Ok(Found { answer, left })
    }
}
