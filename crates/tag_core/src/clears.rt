//! How held tags are given back.
ghost use Rattle.std.specs.Prelude.{◌≡◌, ℕ, ◌^◌, ◌<◌, IsTrue};
ghost use Rattle.tag_layout.specs.Layout.{words, word_of, place_of, IsWithin};
ghost use Rattle.tag_model.specs.Event.{is_in_mask};
ghost use Rattle.tag_core.specs.Callers.{layout_of, IsCallerOf, Holds, Adds};
ghost use Rattle.tag_core.specs.Holding.{IsInMask, HoldsLess};
ghost use Rattle.tag_core.specs.declared.step.Step.TheVariants.{Word};
ghost use Rattle.tag_core.specs.declared.word_step.WordStep.TheVariants.{Give, Put};

use crate::caller::Caller;
use crate::map::Map;
use crate::plays::{Giving, Putting};
use crate::spots::{aside_spot, word_spot};

impl<R> Map<R> {
    /// Frees held tags of one word at once: clears their bits. One step, `fetch_sub`: the bits are known to be 1.
    pub fn give(&self, caller: &mut Caller<R>, word: u32, mask: u64)
        requires caller { IsCallerOf self.now caller.old }
        requires within { (word < words (layout_of self.now)) × IsWithin (layout_of self.now) word mask }
        requires held { (tag : ℕ) → tag < (layout_of self.now).depth
            → IsTrue (is_in_mask (layout_of self.now) word mask tag) → Holds caller.old tag }
        ensures caller { IsCallerOf self.now caller.new }
        ensures step { (found : ℕ) × Adds (Word (Give word mask found)) caller.old caller.new }
        ensures released { HoldsLess (IsInMask (layout_of self.now) word mask) caller.old caller.new }
    {
        let table = &self.table.shared;
        // The caller holds all of these tags, so each of their bits is 1 there: a difference clears them in one instruction.
        // To clear them by an and, and to return the word as it was, takes a loop.
        table.fetch_sub::<Giving>(&mut caller.seat, word_spot(word), mask);
        let held = caller.held[word as usize] & !mask;
        caller.held[word as usize] = held;
        caller.back += mask.count_ones() as u64;
    }

    /// Sets a held tag aside: its bit in the word stays 1, its bit in the cleared set becomes 1, and the next sweep of
    /// the word frees it. One step, like `sbitmap_deferred_clear_bit` (include/linux/sbitmap.h): `fetch_add`, where the
    /// kernel has `set_bit`, since the bit is known to be 0.
    pub fn put(&self, caller: &mut Caller<R>, tag: u32)
        requires caller { IsCallerOf self.now caller.old }
        requires held { Holds caller.old tag }
        ensures caller { IsCallerOf self.now caller.new }
        ensures step { (found : ℕ)
            × Adds (Word (Put (word_of (layout_of self.now) tag) (2 ^ place_of (layout_of self.now) tag) found)) caller.old caller.new }
        ensures released { HoldsLess (λ t. t ≡ tag) caller.old caller.new }
    {
        let word = caller.layout.word_of(tag);
        let bit = 1u64 << caller.layout.place_of(tag);
        let table = &self.table.shared;
        // The caller holds the tag, so its bit is 0 there: a sum sets it in one instruction.
        table.fetch_add::<Putting>(&mut caller.seat, aside_spot(word), bit);
        let held = caller.held[word as usize] - bit;
        caller.held[word as usize] = held;
        caller.back += 1;
    }
}
