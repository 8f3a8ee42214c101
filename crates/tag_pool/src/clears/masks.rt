//! Clears of the ordinary tags of a mask, as a batch get answers it.
ghost use Rattle.std.specs.Prelude.{◌≡◌, ◌+◌, ◌-◌, ◌≤◌, ◌↔◌, count_ones, All, IfOk, OnOk, IfSome, IsSome, ⊤};
ghost use Rattle.refusals.specs.Refusals.{RefusesBy};
ghost use Rattle.tag_core.specs.Callers.{record_of, layout_of, Holds as HoldsTag};
ghost use Rattle.tag_pool.specs.Batches.{DoesClearMask, GivesBack, GivesBackAndWakes, mask_words};
ghost use Rattle.tag_pool.specs.Hands.{IsHandOf, IsStillOf, Holds, back_of, step_count};
ghost use Rattle.tag_pool.specs.Lists.{AreOrdinary};
ghost use Rattle.tag_pool.specs.Masks.{tags_in, words_over};
ghost use Rattle.tag_pool.specs.Refusals.{mask_checks};
ghost use Rattle.tag_pool.specs.Runs.{Gives};
ghost use Rattle.tag_pool.specs.Sets.{numbers_of};
ghost use Rattle.tag_pool.specs.Sides as side;
ghost use Rattle.tag_pool.specs.Sides.{see_to_steps};
ghost use Rattle.tag_pool.specs.declared.kind.Kind.TheVariants.{Ordinary};

use crate::fault::TagFault;
use crate::hand::Hand;
use crate::kind::Kind;
use crate::pool::Pool;
use crate::side::Side;
use tag_bell::Woken;
use tag_core::Map;
use tag_search::after_clear;
use words::{are_held, give_mask};

mod words;

impl<R: Copy> Pool<R> {
    /// Clears the held ordinary tags of a mask, in which bit `i` is tag `first + i` as in the answer of `get_batch`, then
    /// tells as many of those that wait, and wakes the sleepers among them. Returns whom it told. The effect is that of
    /// `clear_batch` on these tags in order, by one step for each word that has any of them. `BadCount` means that the
    /// mask is empty; `NoSuchTag` that a number is not below the total or its tag is reserved; `NotHeld` that the hand does
    /// not hold a tag. Nothing changes on an error.
    pub fn clear_mask(&self, hand: &mut Hand<R>, first: u32, mask: u64) -> Result<Woken, TagFault>
        requires hand { IsHandOf self.now hand.old }
        ensures hand { IsStillOf self.now hand.old hand.new }
        ensures refusals { RefusesBy (mask_checks self.now hand.old first mask) (hand.new ≡ hand.old) result }
        ensures wakes { IfOk result (λ woken.
            GivesBackAndWakes self.now (tags_in first mask) (count_ones mask) woken hand.old hand.new) }
        ensures bound { OnOk result
            (step_count hand.new ≤ mask_words self.now first mask + see_to_steps + step_count hand.old) }
    {
        self.clear_mask_quietly(hand, first, mask)?;
        Ok(self.wake(hand, Kind::Ordinary, mask.count_ones()))
    }

    /// Clears the tags as `clear_mask` does, but tells nobody: the caller has to see to them. It is refused as `clear_mask`
    /// is: `BadCount`, `NoSuchTag`, `NotHeld`.
    #[inline]
    pub fn clear_mask_quietly(
        &self,
        hand: &mut Hand<R>,
        first: u32,
        mask: u64,
    ) -> Result<(), TagFault>
        requires hand { IsHandOf self.now hand.old }
        ensures hand { IsStillOf self.now hand.old hand.new }
        ensures does { DoesClearMask first mask self.now result hand.old hand.new }
    {
        self.check_mask(hand, first, mask)?;
        self.clear_mask_held_quietly(hand, first, mask);
        Ok(())
    }

    /// Clears the ordinary tags of a mask, each of which the hand holds, like `clear_mask_quietly` but for the checks.
    #[inline]
    pub fn clear_mask_held_quietly(&self, hand: &mut Hand<R>, first: u32, mask: u64)
        requires hand { IsHandOf self.now hand.old }
        requires some { 1 ≤ mask }
        requires ordinary { AreOrdinary self.now (tags_in first mask) }
        requires held { All (Holds hand.old) (tags_in first mask) }
        ensures hand { IsStillOf self.now hand.old hand.new }
        ensures gives { GivesBack self.now (tags_in first mask) hand.old hand.new }
        ensures back { back_of hand.new Ordinary ≡ back_of hand.old Ordinary + count_ones mask }
        ensures bound { step_count hand.new ≤ mask_words self.now first mask + step_count hand.old }
    {
        let Some((first, mask)) = ordinary_mask(first, mask, self.reserved_count) else {
            unreachable!()
        };
        hand.ordinary.give_mask(&self.ordinary, first, mask);
    }

    /// Returns `Ok` if `clear_mask` would clear this mask, and otherwise its refusal. This makes no step. The refusals,
    /// in order: `BadCount`, `NoSuchTag`, `NotHeld`.
    #[inline]
    pub fn check_mask(&self, hand: &Hand<R>, first: u32, mask: u64) -> Result<(), TagFault>
        requires hand { IsHandOf self.now hand.now }
        ensures refusals { RefusesBy (mask_checks self.now hand.now first mask) ⊤ result }
    {
        if mask == 0 {
            return Err(TagFault::BadCount);
        }
        let Some((first, mask)) = ordinary_mask(first, mask, self.reserved_count) else {
            return Err(TagFault::NoSuchTag);
        };
        let depth = self.ordinary.layout().depth();
        if first >= depth {
            return Err(TagFault::NoSuchTag);
        }
        let last = first + mask.ilog2();
        if last >= depth {
            return Err(TagFault::NoSuchTag);
        }
        if !are_held(&self.ordinary, &hand.ordinary.caller, first, mask, last) {
            return Err(TagFault::NotHeld);
        }
        Ok(())
    }
}

impl<R> Side<R> {
    /// Frees the held tags of a mask, in which bit `i` is the set's tag `first + i`, by one step for each word that has any
    /// of them, and moves the hint to the last of them, unless it is round robin.
    #[inline]
    fn give_mask(&mut self, map: &Map<R>, first: u32, mask: u64)
        requires side { side.IsSideOf map.now self.old }
        requires some { 1 ≤ mask }
        requires held { All (HoldsTag (side.caller_of self.old)) (tags_in first mask) }
        ensures side { side.IsSideOf map.now self.new × (side.number_of self.new ≡ side.number_of self.old) }
        ensures gives { Gives (layout_of map.now) (tags_in first mask) self.old self.new }
        ensures back { (record_of (side.caller_of self.new)).back ≡ (record_of (side.caller_of self.old)).back + count_ones mask }
        ensures bound { side.step_count self.new
            ≤ words_over (layout_of map.now) first (tags_in first mask) + side.step_count self.old }
    {
        let last = first + mask.ilog2();
        give_mask(map, &mut self.caller, first, mask, last);
        after_clear(&mut self.hint, last);
    }
}

/// Returns the first number and the mask of the same tags in the ordinary set, or `None` if one of them is reserved.
#[inline]
fn ordinary_mask(first: u32, mask: u64, reserved: u32) -> Option<(u32, u64)>
    requires { 1 ≤ mask }
    ensures ordinary { IsSome result ↔ All (λ tag. reserved ≤ tag) (tags_in first mask) }
    ensures numbers { IfSome result (λ run. (run.0 ≡ first - reserved) × (tags_in run.0 run.1 ≡ numbers_of reserved (tags_in first mask))) }
    ensures ones { IfSome result (λ run. count_ones run.1 ≡ count_ones mask) }
    ensures small { IfSome result (λ run. run.1 ≤ mask) }
{
    if first >= reserved {
        return Some((first - reserved, mask));
    }
    let under = reserved - first;
    if mask.trailing_zeros() < under {
        return None;
    }
    Some((0, mask >> under))
}
