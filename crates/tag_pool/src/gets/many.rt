//! Gets of several tags in one call, which takes all of them or none: the call that then sees to the tags that it left
//! free, and the one that tells nobody.
ghost use Rattle.std.specs.Prelude.{◌≡◌, ◌+◌, ◌≤◌, length, IfOk, ⊤};
ghost use Rattle.refusals.specs.Refusals.{RefusesBy};
ghost use Rattle.tag_pool.specs.Hands.{HasRoom, IsHandOf, IsStillOf, step_count};
ghost use Rattle.tag_pool.specs.Lists.{AreHeldOnce, AreOrdinary};
ghost use Rattle.tag_pool.specs.Many.{DoesGetMany, GetsMany, GetsManyAndLooks, GivesBackAny, most_many_steps};
ghost use Rattle.tag_pool.specs.Refusals.{many_checks};
ghost use Rattle.tag_pool.specs.Sides.{see_to_steps};
ghost use Rattle.tag_pool.specs.declared.kind.Kind.TheVariants.{Ordinary};

use crate::fault::TagFault;
use crate::gets::Got;
use crate::hand::Hand;
use crate::kind::Kind;
use crate::pool::Pool;

impl<R: Copy> Pool<R> {
    /// Takes as many free ordinary tags as the slice has places, by one get for each, and writes them there, or takes none:
    /// `false` means that one of these gets found no tag, so the hand gave back what it had won in the call, and what the
    /// slice has means nothing. An empty slice gets `true` without a step. Whatever it answers, it then tells up to as many
    /// of those that wait as its gets left tags free and it gave tags back, and wakes the sleepers among them. `BadCount`
    /// means that there are fewer ordinary tags than places, `Spent` that the life does not suffice for so many more tags;
    /// nothing changes then.
    pub fn get_many(&self, hand: &mut Hand<R>, tags: &mut [u32]) -> Result<Got<bool>, TagFault>
        requires hand { IsHandOf self.now hand.old }
        ensures hand { IsStillOf self.now hand.old hand.new }
        ensures refusals { RefusesBy (many_checks self.now hand.old (length tags.old))
            ((hand.new ≡ hand.old) × (tags.new ≡ tags.old)) result }
        ensures count { length tags.new ≡ length tags.old }
        ensures gets { IfOk result (λ got.
            GetsManyAndLooks self.now tags.new got.answer got.woken hand.old hand.new) }
        ensures bound { step_count hand.new
            ≤ most_many_steps self.now (length tags.old) + see_to_steps + step_count hand.old }
    {
        let (answer, left) = self.get_many_quietly(hand, tags)?;
        let woken = self.look_after(hand, Kind::Ordinary, left);
        Ok(Got { answer, woken })
    }

    /// Like `get_many`, but tells nobody: after its answer it returns the sum of how many ordinary tags each of its gets left
    /// free, and of those that it gave back. The caller sees to so many (`see_to`, `wake`). It is refused as `get_many` is:
    /// `BadCount`, `Spent`.
    pub fn get_many_quietly(
        &self,
        hand: &mut Hand<R>,
        tags: &mut [u32],
    ) -> Result<(bool, u64), TagFault>
        requires hand { IsHandOf self.now hand.old }
        ensures hand { IsStillOf self.now hand.old hand.new }
        ensures does { DoesGetMany self.now tags.old tags.new result hand.old hand.new }
    {
        self.check_many(hand, tags.len())?;
        Ok(self.win_many(hand, tags))
    }

    /// Returns `Ok` if `get_many` would take so many tags or none, and otherwise its refusal. This makes no step.
    fn check_many(&self, hand: &Hand<R>, n: usize) -> Result<(), TagFault>
        requires hand { IsHandOf self.now hand.now }
        ensures refusals { RefusesBy (many_checks self.now hand.now n) ⊤ result }
    {
        if n > self.ordinary.layout().depth() as usize {
            return Err(TagFault::BadCount);
        }
        if !hand.ordinary.caller.room(n as u32) {
            return Err(TagFault::Spent);
        }
        Ok(())
    }

    /// Wins a tag for each place of the slice, or none. Returns whether it won them, and how many tags to see to.
    fn win_many(&self, hand: &mut Hand<R>, tags: &mut [u32]) -> (bool, u64)
        requires hand { IsHandOf self.now hand.old }
        requires room { HasRoom hand.old Ordinary (length tags.old) }
        ensures hand { IsStillOf self.now hand.old hand.new }
        ensures count { length tags.new ≡ length tags.old }
        ensures gets { GetsMany self.now tags.new result.0 result.1 hand.old hand.new }
        ensures bound { step_count hand.new ≤ most_many_steps self.now (length tags.old) + step_count hand.old }
    {
        let mut left = 0u64;
        for i in 0..tags.len() {
            let Ok(found) = self.get_quietly(hand) else {
                unreachable!()
            };
            left = left.saturating_add(found.left);
            let Some(tag) = found.answer else {
                self.free_all(hand, &tags[..i]);
                return (false, left.saturating_add(i as u64));
            };
            tags[i] = tag;
        }
        (true, left)
    }

    /// Frees ordinary tags that the hand holds, however many there are.
    fn free_all(&self, hand: &mut Hand<R>, tags: &[u32])
        requires hand { IsHandOf self.now hand.old }
        requires ordinary { AreOrdinary self.now tags.now }
        requires held { AreHeldOnce hand.old tags.now }
        ensures hand { IsStillOf self.now hand.old hand.new }
        ensures gives { GivesBackAny self.now tags.now hand.old hand.new }
        ensures bound { step_count hand.new ≤ length tags.now + step_count hand.old }
    {
        if !tags.is_empty() {
            hand.ordinary
                .give_list(&self.ordinary, self.reserved_count, tags);
        }
    }
}
