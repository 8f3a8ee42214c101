//! Gets: the calls that take tags, and then see to those that their sweeps freed and they did not take.
ghost use Rattle.std.specs.Prelude.{◌≡◌, ◌+◌, ◌≤◌, false, IfOk, IsTrue, None};
ghost use Rattle.refusals.specs.Refusals.{RefusesBy};
ghost use Rattle.tag_bell.specs.Calls.{nobody};
ghost use Rattle.tag_bell.specs.Sleeping.{told_by};
ghost use Rattle.tag_pool.specs.Gets.{Gets, GetsAndLooks, GetsBatch, GetsShallow, LooksAfter, most_steps};
ghost use Rattle.tag_pool.specs.Hands.{IsHandOf, IsStillOf, hint_of, step_count};
ghost use Rattle.tag_pool.specs.Refusals.{get_checks, reserved_checks, shallow_checks, batch_checks, CountsBatch};
ghost use Rattle.tag_pool.specs.Sides.{see_to_steps};
ghost use Rattle.tag_pool.specs.declared.kind.Kind.TheVariants.{Ordinary, Reserved};

use crate::fault::TagFault;
use crate::hand::Hand;
use crate::kind::Kind;
use crate::pool::Pool;
use tag_bell::Woken;
use tag_search::Found;

mod blocking;
mod exact;
mod many;
mod quietly;
pub(crate) mod rounds;

/// What a get answers that also sees to the tags that its sweeps freed and it did not take.
#[derive(Drop)]
pub struct Got<A> {
    /// What it won.
    pub answer: A,
    /// Who was told of the tags that it left free, which happens whether or not it won one itself.
    pub woken: Woken,
}

impl<R: Copy> Pool<R> {
    /// Takes a free ordinary tag, which this hand alone holds until it clears or posts the tag. `None` means that each tag
    /// that the search looked at was found taken at some moment of the call, not that all were taken at the same moment.
    /// Then, whatever it answers, it tells up to as many of those that wait as its sweeps left tags free, and wakes the
    /// sleepers among them. `Spent` means that the hand's life in the ordinary set is used up.
    #[inline(always)]
    pub fn get(&self, hand: &mut Hand<R>) -> Result<Got<Option<u32>>, TagFault>
        requires hand { IsHandOf self.now hand.old }
        ensures hand { IsStillOf self.now hand.old hand.new }
        ensures refusals { RefusesBy (get_checks hand.old) (hand.new ≡ hand.old) result }
        ensures gets { IfOk result (λ got.
            GetsAndLooks Ordinary (Gets self.now Ordinary got.answer) got.woken hand.old hand.new) }
        ensures bound { step_count hand.new ≤ most_steps self.now Ordinary + see_to_steps + step_count hand.old }
    {
        let Found { answer, left } = self.get_quietly(hand)?;
        let woken = self.look_after(hand, Kind::Ordinary, left);
        Ok(Got { answer, woken })
    }

    /// Like `get`, but limited to `depth` of the ordinary tags, which are shared out among the words in proportion. A
    /// word's share may be 0. `TooShallow` means that `depth` is 0 or below the minimum shallow depth. `Spent` is that
    /// of `get`.
    pub fn get_shallow(&self, hand: &mut Hand<R>, depth: u32) -> Result<Got<Option<u32>>, TagFault>
        requires hand { IsHandOf self.now hand.old }
        ensures hand { IsStillOf self.now hand.old hand.new }
        ensures refusals { RefusesBy (shallow_checks self.now hand.old depth) (hand.new ≡ hand.old) result }
        ensures gets { IfOk result (λ got.
            GetsAndLooks Ordinary (GetsShallow self.now depth got.answer) got.woken hand.old hand.new) }
        ensures bound { step_count hand.new ≤ most_steps self.now Ordinary + see_to_steps + step_count hand.old }
    {
        let Found { answer, left } = self.get_shallow_quietly(hand, depth)?;
        let woken = self.look_after(hand, Kind::Ordinary, left);
        Ok(Got { answer, woken })
    }

    /// Takes up to `n` free ordinary tags out of `n` consecutive ones of one word, where `n` is 1 to the bits of a
    /// word. Returns the first of them and the mask of those won, in which bit 0 is that first tag, and tells those that
    /// wait as `get` does. Under round robin it returns `None` and makes no step, as in the kernel (lib/sbitmap.c).
    /// `BadCount` means an `n` out of that range, `Spent` that the life does not suffice for `n` more tags.
    pub fn get_batch(&self, hand: &mut Hand<R>, n: u32) -> Result<Got<Option<(u32, u64)>>, TagFault>
        requires hand { IsHandOf self.now hand.old }
        ensures hand { IsStillOf self.now hand.old hand.new }
        ensures refusals { RefusesBy (batch_checks self.now hand.old n) (hand.new ≡ hand.old) result }
        ensures round_robin { CountsBatch self.now n → IsTrue (hint_of hand.old Ordinary).round_robin
            → IfOk result (λ got. (got.answer ≡ None) × (told_by got.woken ≡ nobody)) × (hand.new ≡ hand.old) }
        ensures gets { (hint_of hand.old Ordinary).round_robin ≡ false
            → IfOk result (λ got. GetsAndLooks Ordinary (GetsBatch self.now n got.answer) got.woken hand.old hand.new) }
        ensures bound { step_count hand.new ≤ most_steps self.now Ordinary + see_to_steps + step_count hand.old }
    {
        let Found { answer, left } = self.get_batch_quietly(hand, n)?;
        let woken = self.look_after(hand, Kind::Ordinary, left);
        Ok(Got { answer, woken })
    }

    /// Takes a free reserved tag as `get` takes an ordinary one, and then tells those that wait for a reserved tag.
    /// `NoReserved` means that there are none. `Spent` means that the hand's life in the reserved set is used up.
    pub fn get_reserved(&self, hand: &mut Hand<R>) -> Result<Got<Option<u32>>, TagFault>
        requires hand { IsHandOf self.now hand.old }
        ensures hand { IsStillOf self.now hand.old hand.new }
        ensures refusals { RefusesBy (reserved_checks self.now hand.old) (hand.new ≡ hand.old) result }
        ensures gets { IfOk result (λ got.
            GetsAndLooks Reserved (Gets self.now Reserved got.answer) got.woken hand.old hand.new) }
        ensures bound { step_count hand.new ≤ most_steps self.now Reserved + see_to_steps + step_count hand.old }
    {
        let Found { answer, left } = self.get_reserved_quietly(hand)?;
        let woken = self.look_after(hand, Kind::Reserved, left);
        Ok(Got { answer, woken })
    }

    /// Sees to the tags of a kind that a get left free, if it left any: somebody may have looked for a tag before these were
    /// free, and sleep.
    #[inline(always)]
    fn look_after(&self, hand: &mut Hand<R>, kind: Kind, left: u64) -> Woken
        requires hand { IsHandOf self.now hand.old }
        ensures hand { IsStillOf self.now hand.old hand.new }
        ensures looks { LooksAfter kind left result hand.old hand.new }
        ensures bound { step_count hand.new ≤ see_to_steps + step_count hand.old }
    {
        if left == 0 {
            return Woken::none();
        }
        self.look_after_some(hand, kind, left)
    }

    /// The same where some were left. It is out of line, so that a get is short where none was.
    #[cold]
    #[inline(never)]
    fn look_after_some(&self, hand: &mut Hand<R>, kind: Kind, left: u64) -> Woken
        requires hand { IsHandOf self.now hand.old }
        requires some { 1 ≤ left }
        ensures hand { IsStillOf self.now hand.old hand.new }
        ensures looks { LooksAfter kind left result hand.old hand.new }
        ensures bound { step_count hand.new ≤ see_to_steps + step_count hand.old }
    {
        // No more than 64 hands wait.
        self.wake(hand, kind, left.min(64) as u32)
    }
}
