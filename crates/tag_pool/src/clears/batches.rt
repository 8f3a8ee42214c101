//! Clears of several ordinary tags at once.
ghost use Rattle.std.specs.Prelude.{◌≡◌, ◌+◌, ◌≤◌, ◌↔◌, length, All, IfOk, OnOk, IsTrue, ⊤};
ghost use Rattle.refusals.specs.Refusals.{RefusesBy};
ghost use Rattle.tag_core.specs.Callers.{IsCallerOf, record_of, layout_of};
ghost use Rattle.tag_pool.specs.Batches.{DoesClearBatch, GivesBack, GivesBackAndWakes};
ghost use Rattle.tag_pool.specs.Hands.{IsHandOf, IsStillOf, IsTagOf, back_of, step_count};
ghost use Rattle.tag_pool.specs.Lists.{AreOrdinary, AreHeldOnce};
ghost use Rattle.tag_pool.specs.Refusals.{list_checks};
ghost use Rattle.tag_pool.specs.Runs.{CountsTags, Gives, GivesAll, HoldsOnce};
ghost use Rattle.tag_pool.specs.Sets.{numbers_of};
ghost use Rattle.tag_pool.specs.Sides as side;
ghost use Rattle.tag_pool.specs.Sides.{see_to_steps};
ghost use Rattle.tag_pool.specs.declared.kind.Kind.TheVariants.{Ordinary};

use crate::clears::lists::{are_below, are_distinct, are_from};
use crate::fault::TagFault;
use crate::hand::Hand;
use crate::kind::Kind;
use crate::pool::Pool;
use crate::side::Side;
use tag_bell::Woken;
use tag_core::{Caller, Map};
use tag_search::after_clear;

/// The most tags that one call gets or clears, a bit of a mask for each.
pub const MAX_BATCH: usize = 64;

impl<R: Copy> Pool<R> {
    /// Clears 1 to 64 held ordinary tags, then tells as many of those that wait, and wakes the sleepers among them. Returns
    /// whom it told. Like `sbitmap_queue_clear_batch` (lib/sbitmap.c) it frees the tags at once, where `clear` only sets its
    /// tag aside. Successive tags of the list that lie in one word take one step. `BadCount` means no tag, or more than 64;
    /// `NoSuchTag` that a number is not below the total or its tag is reserved; `NotHeld` that a tag is not held or named
    /// twice. Nothing changes on an error.
    pub fn clear_batch(&self, hand: &mut Hand<R>, tags: &[u32]) -> Result<Woken, TagFault>
        requires hand { IsHandOf self.now hand.old }
        ensures hand { IsStillOf self.now hand.old hand.new }
        ensures refusals { RefusesBy (list_checks self.now hand.old tags.now) (hand.new ≡ hand.old) result }
        ensures wakes { IfOk result (λ woken. GivesBackAndWakes self.now tags.now (length tags.now) woken hand.old hand.new) }
        ensures bound { OnOk result (step_count hand.new ≤ length tags.now + see_to_steps + step_count hand.old) }
    {
        self.clear_batch_quietly(hand, tags)?;
        Ok(self.wake(hand, Kind::Ordinary, tags.len() as u32))
    }

    /// Clears the tags as `clear_batch` does, but tells nobody: the caller has to see to them. It is refused as
    /// `clear_batch` is: `BadCount`, `NoSuchTag`, `NotHeld`.
    pub fn clear_batch_quietly(&self, hand: &mut Hand<R>, tags: &[u32]) -> Result<(), TagFault>
        requires hand { IsHandOf self.now hand.old }
        ensures hand { IsStillOf self.now hand.old hand.new }
        ensures does { DoesClearBatch tags.now self.now result hand.old hand.new }
    {
        self.check_batch(hand, tags)?;
        self.clear_batch_held_quietly(hand, tags);
        Ok(())
    }

    /// Clears 1 to 64 ordinary tags that the hand holds, like `clear_batch_quietly` but for the checks.
    pub fn clear_batch_held_quietly(&self, hand: &mut Hand<R>, tags: &[u32])
        requires hand { IsHandOf self.now hand.old }
        requires count { CountsTags tags.now }
        requires ordinary { AreOrdinary self.now tags.now }
        requires held { AreHeldOnce hand.old tags.now }
        ensures hand { IsStillOf self.now hand.old hand.new }
        ensures gives { GivesBack self.now tags.now hand.old hand.new }
        ensures back { back_of hand.new Ordinary ≡ back_of hand.old Ordinary + length tags.now }
        ensures bound { step_count hand.new ≤ length tags.now + step_count hand.old }
    {
        hand.ordinary
            .give_list(&self.ordinary, self.reserved_count, tags);
    }

    /// Returns `Ok` if `clear_batch` would clear this list, and otherwise its refusal. This makes no step. The
    /// refusals, in order: `BadCount`, `NoSuchTag`, `NotHeld`.
    pub fn check_batch(&self, hand: &Hand<R>, tags: &[u32]) -> Result<(), TagFault>
        requires hand { IsHandOf self.now hand.now }
        ensures refusals { RefusesBy (list_checks self.now hand.now tags.now) ⊤ result }
    {
        if tags.is_empty() || tags.len() > MAX_BATCH {
            return Err(TagFault::BadCount);
        }
        if !self.are_ordinary(tags) {
            return Err(TagFault::NoSuchTag);
        }
        if !hand.holds_once(tags) {
            return Err(TagFault::NotHeld);
        }
        Ok(())
    }

    /// Returns whether each number in the list is an ordinary tag's.
    fn are_ordinary(&self, tags: &[u32]) -> bool
        ensures { IsTrue result ↔ AreOrdinary self.now tags.now }
    {
        are_from(tags, self.reserved_count) && are_below(tags, self.total)
    }
}

impl<R> Hand<R> {
    /// Returns whether the hand holds each tag in the list, and none is named twice.
    fn holds_once(&self, tags: &[u32]) -> bool
        requires { All (IsTagOf self.now) tags.now }
        ensures { IsTrue result ↔ AreHeldOnce self.now tags.now }
    {
        for tag in tags {
            if !self.holds(*tag) {
                return false;
            }
        }
        are_distinct(tags)
    }
}

impl<R> Side<R> {
    /// Frees held tags of the set whose first tag is `first`, and moves the hint to the last of them, unless it is round
    /// robin. Successive tags of the list that lie in one word take one step.
    pub(crate) fn give_list(&mut self, map: &Map<R>, first: u32, tags: &[u32])
        requires side { side.IsSideOf map.now self.old }
        requires some { 1 ≤ length tags.now }
        requires from { All (λ tag. first ≤ tag) tags.now }
        requires held { HoldsOnce (side.caller_of self.old) (numbers_of first tags.now) }
        ensures side { side.IsSideOf map.now self.new × (side.number_of self.new ≡ side.number_of self.old) }
        ensures gives { Gives (layout_of map.now) (numbers_of first tags.now) self.old self.new }
        ensures back { (record_of (side.caller_of self.new)).back ≡ (record_of (side.caller_of self.old)).back + length tags.now }
        ensures bound { side.step_count self.new ≤ length tags.now + side.step_count self.old }
    {
        give_all(map, &mut self.caller, first, tags);
        after_clear(&mut self.hint, tags[tags.len() - 1] - first);
    }
}

/// Frees held tags of the map, in whose numbers the first tag of the set is 0. Successive tags of the list that lie in one
/// word take one step.
fn give_all<R>(map: &Map<R>, caller: &mut Caller<R>, first: u32, tags: &[u32])
    requires caller { IsCallerOf map.now caller.old }
    requires some { 1 ≤ length tags.now }
    requires from { All (λ tag. first ≤ tag) tags.now }
    requires held { HoldsOnce caller.old (numbers_of first tags.now) }
    ensures caller { IsCallerOf map.now caller.new }
    ensures gives { GivesAll (layout_of map.now) (numbers_of first tags.now) caller.old caller.new }
    ensures back { (record_of caller.new).back ≡ (record_of caller.old).back + length tags.now }
{
    let layout = map.layout();
    let mut word = layout.word_of(tags[0] - first);
    let mut mask = 0u64;
    for tag in tags {
        let number = *tag - first;
        let here = layout.word_of(number);
        let bit = 1u64 << layout.place_of(number);
        if here == word {
            mask |= bit;
        } else {
            map.give(caller, word, mask);
            word = here;
            mask = bit;
        }
    }
    map.give(caller, word, mask);
}
